//! The program: words and the real host in, a status out. Its text goes to the error output, and behind it what was wrong.
#![tactic(auto)]

ghost use Rattle.std.specs.Prelude.{◌≡◌, ◌≢◌, ◌⊎◌, Err, IfOk, IfErr, MatchBool, map, string_bytes};
ghost use Rattle.std.specs.Vec.Iter.{into_iter_items};
ghost use Rattle.std.specs.Process.{exit_status};
ghost use Rattle.std.specs.declared.io.ErrorKind.TheVariants.{OutOfMemory};
ghost use Rattle.outside_io.specs.Causes.{Rose};
ghost use Rattle.run_parts.specs.ExitCodes.{exit_code_of};
ghost use Rattle.rist_top.specs.Lines.{AsksNothing, IsNoLine};
ghost use Rattle.pass_words.specs.Options.{pass_file_of};
ghost use Rattle.pass_words.specs.declared.options.PassOption.{PassOption};
ghost use Rattle.rist.specs.Addressed.{AreAddressed, AreResolved};
ghost use Rattle.rist.specs.NoWords.{link_status, pass_status, status_before};
ghost use Rattle.rist.specs.Sinks.{has_several_sinks};

mod laws;

use link_words::{Lookup, NoLink, SystemNames, with_addresses};
use outside_host::RealHost;
use pass_words::{NoPass, with_passphrases};
use rist_top::{Status, complaint, run};
use std::alloc::{Alloc, Global};
use std::env::{self, Args, Env};
use std::fs::Files;
use std::io::{ErrorKind, Input};
use std::process::ExitCode;
use std::sync::Wait;
use std::thread::Threads;

/// Why there are no words to go by.
#[derive(Drop)]
enum NoWords {
    /// The system gives none.
    Given(Status),
    /// A passphrase that a file or the variable stands for can't be had.
    Pass(NoPass),
    /// A link has no address.
    Link(NoLink),
}

/// The words of the command line, each passphrase of a file and that of the variable in its place, and an address in that of
/// each name.
fn words_of(rt: &HostRuntime) -> Result<Vec<String>, NoWords> {
    let given = match env::args(rt) {
        Ok(args) => all_of(rt.alloc(), args),
        Err(error) => Err(refusal(error.kind())),
    };
    match given {
        Ok(words) => resolved(rt, rt.alloc(), &mut SystemNames(rt), words),
        Err(status) => Err(NoWords::Given(status)),
    }
}

/// The words with each passphrase in its place, and then an address in that of each name.
fn resolved<R: Files + Input + Env + Alloc, L: Lookup>(
    rt: &R,
    alloc: Global,
    names: &mut L,
    words: Vec<String>,
) -> Result<Vec<String>, NoWords>
    ensures ok { IfOk result (λ line. AreResolved (L.table names.old) words.items line.items) }
    ensures pass { (fault : _) → pass_file_of PassOption.Own (map string_bytes words.items) ≡ Err fault
        → result ≡ Err (NoWords.Pass (NoPass.Words fault)) }
{
    match with_passphrases(rt, alloc, words) {
        Ok(words) => addressed(alloc, names, words),
        Err(refused) => Err(NoWords::Pass(refused)),
    }
}

/// The words with an address for each link that has a name or a URL.
fn addressed<L: Lookup>(
    alloc: Global,
    names: &mut L,
    words: Vec<String>,
) -> Result<Vec<String>, NoWords>
    ensures ok { IfOk result (λ line. AreAddressed (L.table names.old) words.items line.items) }
{
    match with_addresses(alloc, names, words) {
        Ok(words) => Ok(words),
        Err(refused) => Err(NoWords::Link(refused)),
    }
}

/// How the program ends where a passphrase can't be had: a file with none in its first line is one that can't be opened.
fn status_of(refused: &NoPass) -> Status
    ensures { result ≡ pass_status refused.now }
{
    match refused {
        NoPass::Memory => Status::Memory,
        NoPass::Words(_) => Status::Usage,
        NoPass::Closed(..) => Status::OpenFault,
        NoPass::Line(..) => Status::OpenFault,
        NoPass::Variable => Status::Usage,
    }
}

/// How the program ends where a link has no address: a name without one is a link that can't be opened.
fn status_without(refused: &NoLink) -> Status
    ensures { result ≡ link_status refused.now }
{
    match refused {
        NoLink::Memory => Status::Memory,
        NoLink::NoEndpoint(_) => Status::Usage,
        NoLink::Listens(_) => Status::Usage,
        NoLink::Parameter(..) => Status::Usage,
        NoLink::TooMany(_) => Status::Usage,
        NoLink::Unknown(_) => Status::OpenFault,
    }
}

/// Says on the error output why there are no words, and gives the exit status.
fn ended_before(rt: &HostRuntime, refused: NoWords, host: &RealHost<'_, HostRuntime>) -> ExitCode
    ensures exit { exit_status result ≡ exit_code_of (status_before refused) }
{
    match refused {
        NoWords::Given(status) => ended(rt, status, &[], host),
        NoWords::Pass(refused) => ended_without(rt, &refused),
        NoWords::Link(refused) => ended_unlinked(rt, &refused),
    }
}

/// Says on the error output why a link has no address, and gives the exit status.
fn ended_unlinked(rt: &HostRuntime, refused: &NoLink) -> ExitCode
    ensures exit { exit_status result ≡ exit_code_of (link_status refused.now) }
{
    let status = status_without(refused);
    // A text that can't be written changes no status.
    let _ = eprintln!(rt; "rist: {status}");
    let _ = eprintln!(rt; "rist: {refused}");
    let code = status.exit_code();
    ExitCode::from(code)
}

/// Says on the error output why a passphrase can't be had, and gives the exit status.
fn ended_without(rt: &HostRuntime, refused: &NoPass) -> ExitCode
    ensures exit { exit_status result ≡ exit_code_of (pass_status refused.now) }
{
    let status = status_of(refused);
    // A text that can't be written changes no status.
    let _ = eprintln!(rt; "rist: {status}");
    let _ = eprintln!(rt; "rist: {refused}");
    let code = status.exit_code();
    ExitCode::from(code)
}

/// Why the system gives no words: memory is refused, or one of them isn't UTF-8, and that is no line.
fn refusal(kind: ErrorKind) -> Status
    ensures memory { kind ≡ OutOfMemory → result ≡ Status.Memory }
    ensures usage { kind ≢ OutOfMemory → result ≡ Status.Usage }
{
    if kind == ErrorKind::OutOfMemory {
        return Status::Memory;
    }
    Status::Usage
}

/// All words as they come, empty ones too.
fn all_of(alloc: Global, args: Args) -> Result<Vec<String>, Status>
    ensures words { IfOk result (λ words. words.items ≡ into_iter_items args) }
    ensures only { IfErr result (λ status. status ≡ Status.Memory) }
{
    match args.collect(alloc) {
        Ok(words) => Ok(words),
        Err(_) => Err(Status::Memory),
    }
}

/// Does what the words say, once, with the real host and with threads of this runtime. Says how that ended, and gives the
/// exit status.
fn exit_for<R: Threads + Wait + Sync>(
    rt: &HostRuntime,
    threads: &R,
    words: &[String],
    host: &mut RealHost<'_, HostRuntime>,
) -> ExitCode
    // The words are refused exactly where they are no line and ask for nothing, memory aside.
    ensures usage { exit_status result ≡ 2 → IsNoLine words.now }
    ensures unasked { exit_status result ≡ 2 → AsksNothing words.now }
    ensures refused { IsNoLine words.now → AsksNothing words.now
        → (exit_status result ≡ 2) ⊎ (exit_status result ≡ 1) }
    // A fault at opening is told exactly where a call of the host failed.
    ensures opened { exit_status result ≡ 3 → Rose host.old.faults host.new.faults }
    ensures others { exit_status result ≢ 3 → host.new.faults ≡ host.old.faults }
{
    let status = run(threads, rt.alloc(), words, host);
    ended(rt, status, words, host)
}

/// Whether the words are those of a command that writes to several sinks: the host knows the last one's name alone.
fn has_several_sinks(words: &[String]) -> bool
    ensures value { result ≡ has_several_sinks (map string_bytes words.now) }
{
    match words {
        [_, command, ..] => command.as_str() == "split" || command.as_str() == "fan",
        _ => false,
    }
}

/// Says on the error output what was wrong with the words, what couldn't be opened and why, or whose call failed. A line that
/// can't be written changes no status.
fn explain(rt: &HostRuntime, status: &Status, words: &[String], host: &RealHost<'_, HostRuntime>) {
    match status {
        Status::Usage if words.is_empty() => {
            let _ = eprintln!(rt; "rist: a word isn't UTF-8 (rist --help)");
        }
        Status::Usage => {
            if let Ok(complaint) = complaint(rt.alloc(), words) {
                let _ = eprintln!(rt; "rist: {complaint}");
            }
        }
        Status::OpenFault => {
            if let Some(trouble) = host.trouble() {
                let _ = eprintln!(rt; "rist: {trouble}");
            }
        }
        Status::ReadFault => {
            if let Some(name) = host.source_name() {
                let _ = eprintln!(rt; "rist: {name}");
            }
        }
        Status::WriteFault if !has_several_sinks(words) => {
            if let Some(name) = host.sink_name() {
                let _ = eprintln!(rt; "rist: {name}");
            }
        }
        _ => {}
    }
}

/// Whether the error output says how the program ended: not where it did its work.
fn is_told(status: &Status) -> bool
    ensures value { MatchBool result (status.now ≢ Status.Done) (status.now ≡ Status.Done) }
{
    *status != Status::Done
}

/// Says on the error output how the program ended, and gives its exit status.
fn ended(
    rt: &HostRuntime,
    status: Status,
    words: &[String],
    host: &RealHost<'_, HostRuntime>,
) -> ExitCode
    ensures exit { exit_status result ≡ exit_code_of status }
{
    if is_told(&status) {
        // A text that can't be written changes no status.
        let _ = eprintln!(rt; "rist: {status}");
        explain(rt, &status, words, host);
    }
    ExitCode::from(status.exit_code())
}

fn main(rt: HostRuntime) -> ExitCode {
    let mut host = RealHost::with_memory(&rt, rt.alloc());
    match words_of(&rt) {
        Ok(words) => exit_for(&rt, &rt, words.as_slice(), &mut host),
        Err(refused) => ended_before(&rt, refused, &host),
    }
}
