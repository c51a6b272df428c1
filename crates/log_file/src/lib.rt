//! Logs of lines at the end of a file that others may take away: it is moved, unlinked, replaced or cut, and is made again.
//!
//! A [`LogFile`] is the file at a path. A [`Journal`] over it opens with whole lines and nothing else, appends to it, and looks
//! whether it is still there: where it is not, the path is opened anew, in a folder that is made again where it is missing.
//! [`SystemLog`] is a file of the system, which no other process has open as a log.
//!
//! Proved, over the definitions of `specs/`: a journal that opens has left the whole lines of its file, the longest prefix that
//! ends with a line feed; it appends only to a file that stood at its path when it was last looked for; what it says that the
//! file was handed, which is [`Handed`], stands at the end of that, and begins anew with another file; what it makes it asks the system to
//! make for its owner alone.
#![tactic(auto)]

mod fault;
mod file;
mod handed;
mod journal;
mod last;
mod loss;
mod paths;
mod system;
mod torn;
mod whole;

pub use fault::LogFault;
pub use file::LogFile;
pub use handed::Handed;
pub use journal::{Journal, Look};
pub use loss::Loss;
pub use paths::LogPaths;
pub use system::{SystemLog, make_folder};
pub use whole::{lines_in, whole_lines};
