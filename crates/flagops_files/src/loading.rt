//! From the path of a file to what it stands for.
ghost use Rattle.std.specs.Prelude.{◌≡◌, ◌≤◌, ◌+◌, ◌||◌, true, length, IfOk, IfSome};
ghost use Rattle.flag_text.specs.Shape.{is_whole};
ghost use Rattle.flag_text.specs.View.{view};
ghost use Rattle.flagops_files.specs.Refusal.{ComesFrom, GivesUnlessWant, is_file_fault, loads_file, loads_rule, loads_tree, TellsOf};
ghost use Rattle.flagops_shell.specs.Files.{load_of};
ghost use Rattle.flagops_files.specs.Loading.{choice_at, refusal_of, rule_at, tree_at};
ghost use Rattle.flagops_files.specs.declared.refusal.Refusal.TheVariants.{Load};
ghost use Rattle.flagops_files.specs.Told.{file};
ghost use Rattle.flagops_shell.specs.Diagnostic.{Says};
ghost use Rattle.file_diagnostics.specs.Named.{Names};
ghost use Rattle.rule_text.specs.Choosing.{choice_view};
ghost use Rattle.flagops_shell.specs.Outcomes.{refused_by};

use crate::refusal::{Refusal, Refused};
use bucket_core::Rule;
use file_diagnostics::{of_rule, of_text, of_unreadable};
use flag_text::{Tree, read_tree};
use flagops_shell::{FileSet, Remark};
use rule_text::{Choice, RuleTextFault, choose_in_text, read_rule_text};
use std::alloc::Global;

/// The largest rule or plan file, in bytes.
pub const RULE_LIMIT: u32 = limits::FILE_BYTES as u32;

/// The most bytes of a rule file of which a tree is made to tell what is wrong: a tree takes some 30 times as many.
const LOOKED_INTO: usize = 1 << 20;

/// The largest request, key file, document or context, in bytes.
pub const TEXT_LIMIT: u32 = limits::TEXT_BYTES as u32;

/// The bytes of the file at a path, of which at most `max + 1` are read, so that the caller sees a file that is too large.
#[tactic(auto, using(crate::proofs::Told::says))]
pub fn load<F: FileSet>(
    alloc: Global,
    files: &mut F,
    path: &str,
    max: u64,
) -> Result<Vec<u8>, Refused>
    ensures exact { IfSome (F.holding files.old) (λ at. GivesUnlessWant (λ v. v.items) result (refused_by Load (load_of at path.now max))) }
    ensures most { IfOk result (λ v. length v.items ≤ max + 1) }
    ensures calls { ComesFrom loads_file result }
    ensures failed { F.has_failed files.new ≡ (F.has_failed files.old || is_file_fault result) }
    ensures kept { F.holding files.new ≡ F.holding files.old }
    ensures names { TellsOf (file path.now) result }
{
    match files.read(alloc, path, max) {
        Ok(bytes) => Ok(bytes),
        Err(fault) => Err(Refused {
            refusal: Refusal::Load(fault),
            remark: Remark::of(of_unreadable(alloc, path, files.trouble())),
        }),
    }
}

/// The tree of the file at a path, of at most so many bytes.
#[tactic(auto, using(crate::proofs::Told::says), unfolding(crate::specs::Loading::tree_at))]
pub fn load_tree<F: FileSet>(
    alloc: Global,
    files: &mut F,
    path: &str,
    limit: u32,
) -> Result<Tree, Refused>
    ensures exact { IfSome (F.holding files.old) (λ at. GivesUnlessWant view result (tree_at at path.now limit)) }
    ensures whole { IfOk result (λ t. is_whole (view t) ≡ true) }
    ensures calls { ComesFrom loads_tree result }
    ensures failed { F.has_failed files.new ≡ (F.has_failed files.old || is_file_fault result) }
    ensures kept { F.holding files.new ≡ F.holding files.old }
    ensures names { TellsOf (file path.now) result }
{
    let bytes = load(alloc, files, path, u64::from(limit))?;
    match read_tree(alloc, bytes.as_slice(), limit as usize) {
        Ok(tree) => Ok(tree),
        Err(fault) => Err(Refused {
            refusal: Refusal::ReadTree(fault),
            remark: Remark::of(of_text(alloc, path, bytes.as_slice(), limit as usize, fault)),
        }),
    }
}

/// The rule of the rule file at a path.
#[tactic(auto, using(crate::proofs::Told::says), unfolding(crate::specs::Loading::rule_at))]
pub fn load_rule<F: FileSet>(alloc: Global, files: &mut F, path: &str) -> Result<Rule, Refused>
    ensures exact { IfSome (F.holding files.old) (λ at. GivesUnlessWant (λ r. r) result (rule_at at path.now)) }
    ensures calls { ComesFrom loads_rule result }
    ensures failed { F.has_failed files.new ≡ (F.has_failed files.old || is_file_fault result) }
    ensures kept { F.holding files.new ≡ F.holding files.old }
    ensures names { TellsOf (file path.now) result }
{
    let bytes = load(alloc, files, path, u64::from(RULE_LIMIT))?;
    match read_rule_text(alloc, bytes.as_slice(), RULE_LIMIT as usize) {
        Ok(rule) => Ok(rule),
        Err(fault) => Err(Refused {
            refusal: refusal_of(fault),
            remark: remark_on(alloc, path, bytes.as_slice(), fault),
        }),
    }
}

/// What the rule of the rule file at a path gives a key. Beside the file it takes 24 bytes for each entry of the rule.
#[tactic(auto, using(crate::proofs::Told::says), unfolding(crate::specs::Loading::choice_at))]
pub fn load_choice<F: FileSet>(
    alloc: Global,
    files: &mut F,
    path: &str,
    key: &str,
) -> Result<Choice, Refused>
    ensures exact { IfSome (F.holding files.old) (λ at. GivesUnlessWant choice_view result (choice_at at path.now key.now)) }
    ensures calls { ComesFrom loads_rule result }
    ensures failed { F.has_failed files.new ≡ (F.has_failed files.old || is_file_fault result) }
    ensures kept { F.holding files.new ≡ F.holding files.old }
    ensures names { TellsOf (file path.now) result }
{
    let bytes = load(alloc, files, path, u64::from(RULE_LIMIT))?;
    match choose_in_text(alloc, bytes.as_slice(), RULE_LIMIT as usize, key) {
        Ok(choice) => Ok(choice),
        Err(fault) => Err(Refused {
            refusal: refusal_of(fault),
            remark: remark_on(alloc, path, bytes.as_slice(), fault),
        }),
    }
}

/// The refusal of a text that is no rule.
fn refusal_of(fault: RuleTextFault) -> Refusal
    ensures { result ≡ refusal_of fault }
{
    match fault {
        RuleTextFault::Text(fault) => Refusal::ReadTree(fault),
        RuleTextFault::Rule(fault) => Refusal::ReadRule(fault),
    }
}

/// What a person is told of it. Only then is the tree of the text made.
#[tactic(auto, using(crate::proofs::Told::says))]
fn remark_on(alloc: Global, path: &str, bytes: &[u8], fault: RuleTextFault) -> Remark
    ensures { Says (Names path.now) result }
{
    let limit = RULE_LIMIT as usize;
    match fault {
        RuleTextFault::Text(fault) => Remark::of(of_text(alloc, path, bytes, limit, fault)),
        RuleTextFault::Rule(fault) if bytes.len() > LOOKED_INTO => {
            Remark::of(of_rule(alloc, path, None, fault))
        }
        RuleTextFault::Rule(fault) => match read_tree(alloc, bytes, limit) {
            Ok(tree) => Remark::of(of_rule(alloc, path, Some(&tree), fault)),
            Err(_) => Remark::Short,
        },
    }
}
