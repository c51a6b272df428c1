//! What the service takes of the system.
use control_desk::DeskPaths;
use log_file::LogPaths;
use std::net::{Net, TcpListener, TcpStream};
use std::random::RandomSource;
use std::sync::Wait;
use std::thread::Threads;
use std::time::Clock;

/// Memory, the files of logs, sockets, the time, random numbers, and threads that may wait: all that the service takes of the system.
pub trait Host: AllocGlobal
    + LogPaths
    + DeskPaths
    + Net<Listener = TcpListener, Stream = TcpStream>
    + Clock
    + RandomSource
    + Threads
    + Wait
    + Sync {}

impl<R> Host for R
where
    R: AllocGlobal
        + LogPaths
        + DeskPaths
        + Net<Listener = TcpListener, Stream = TcpStream>
        + Clock
        + RandomSource
        + Threads
        + Wait
        + Sync,
{}
