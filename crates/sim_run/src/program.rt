//! The top call: the words, the source, the scenario, the run, in this order. The first that refuses
//! decides the answer.

ghost use Rattle.std.specs.Prelude.{◌≡◌, ◌≢◌, length, ◌≤◌, ◌⊎◌, ℕ, List, ◌++◌, Some, [], map, string_bytes, codes, false, Ok, Err, OnOk, IfOk, IfErr, IfSome};
ghost use Rattle.outside.specs.Causes.{Rose};
ghost use Rattle.sim_base.specs.declared.key.NodeId.{NodeId};
ghost use Rattle.sim_base.specs.declared.time.Time.{Time};
ghost use Rattle.scenario_form.specs.Groups.{groups_check};
ghost use Rattle.scenario_form.specs.Limits.{IsWithinLimits};
ghost use Rattle.scenario_form.specs.Reading.{scenario_limit, scenario_of};
ghost use Rattle.scenario_gen.specs.Demo.{demo_of};
ghost use Rattle.command_words.specs.Command.{HaveWorkers, IsInRange, IsUpTo, command_of};
ghost use Rattle.command_words.specs.declared.command.WordFault.{WordFault};
ghost use Rattle.sim_run.specs.Output.{HasFiles, HasFilePrefixes, HasGot, HasGotPrefix};
ghost use Rattle.sim_run.specs.Plain.{plain, answered, commanded, finished, IsAnswer, BeforeFiles, WhereRead, WhereUnread};
ghost use Rattle.sim_run.specs.Stop.{IsWhole};

use crate::input::{InputStop, read_all};
use crate::show::show;
use crate::simulate::simulate;
use crate::sizes::write_sizes;
use crate::status::Status;
use crate::stop::{RunStop, stopped};
use command_words::{Command, Settings, read_command};
use outside::{Gate, Sink, Source, TraceStore};
use pkt_face::Pkt;
use scenario_form::{ReadStop, SCENARIO_LIMIT, Scenario, read_scenario};
use scenario_gen::demo_scenario;
use sim_base::NoMemory;
use std::alloc::Global;
use std::thread::Threads;

/// Runs the program that the words name, over a source, a store and a sink. Packets are of the type `P`. As many workers as the
/// words say fire the groups of each round; each passes the gate before it fires a group.
pub fn run_program<P: Pkt, R: Threads + Sync, S: Source, F: TraceStore, O: Sink, G: Gate + Sync>(
    rt: &R,
    alloc: Global,
    words: &[String],
    source: &mut S,
    store: &mut F,
    out: &mut O,
    gate: &G,
) -> Status
    requires words { length words.now ≤ 1000 }
    requires names { (rest : List ℕ) → F.takes store.old (codes "trace" ++ rest) }

    // The answer is the plain program's, unless the outside or memory failed. A fault of the words comes first.
    ensures answer { IfSome (S.left source.old) (λ input. IsAnswer (plain (map string_bytes words.now) input).status result) }
    ensures words { IfErr (command_of (map string_bytes words.now)) (λ fault. (result ≡ Status.Words fault) × (source.new ≡ source.old)) }
    ensures words_only { (fault : WordFault) → result ≡ Status.Words fault → command_of (map string_bytes words.now) ≡ Err fault }

    // With that answer, the files and the text are the plain program's, and what was read was the whole input, where the command
    // reads it.
    ensures files { IfSome (S.left source.old) (λ input. let p = plain (map string_bytes words.now) input in result ≡ p.status → HasFiles (F.files store.old) (F.files store.new) p.files) }
    ensures text { IfSome (S.left source.old) (λ input. let p = plain (map string_bytes words.now) input in result ≡ p.status → HasGot (O.got out.old) (O.got out.new) p.text) }
    ensures input { IfOk (command_of (map string_bytes words.now)) (λ command. WhereRead command (result ≡ Status.Done → IfSome (S.left source.old) (λ _. S.left source.new ≡ Some []))) }
    ensures unread { IfOk (command_of (map string_bytes words.now)) (λ command. WhereUnread command (source.new ≡ source.old)) }

    // Whatever the answer, the files and the text are prefixes of the plain program's.
    ensures file_prefixes { IfSome (S.left source.old) (λ input. HasFilePrefixes (F.files store.old) (F.files store.new) (plain (map string_bytes words.now) input).files) }
    ensures text_prefix { IfSome (S.left source.old) (λ input. HasGotPrefix (O.got out.old) (O.got out.new) (plain (map string_bytes words.now) input).text) }

    ensures untouched { BeforeFiles result ((store.new ≡ store.old) × (out.new ≡ out.old)) }

    // A fault is answered only where the outside failed.
    ensures read_fault { result ≡ Status.ReadFault → Rose (S.faults source.old) (S.faults source.new) }
    ensures write_fault { result ≡ Status.WriteFault → Rose (F.faults store.old) (F.faults store.new) ⊎ Rose (O.faults out.old) (O.faults out.new) }

    // Where none of them failed, the answer is the plain program's, or memory ran out.
    ensures complete { ¬ Rose (S.faults source.old) (S.faults source.new) → ¬ Rose (F.faults store.old) (F.faults store.new) → ¬ Rose (O.faults out.old) (O.faults out.new) → IfSome (S.left source.old) (λ input. (result ≡ (plain (map string_bytes words.now) input).status) ⊎ (result ≡ Status.NoMemory)) }
{
    match read_command(words) {
        Ok(command) => run_command::<P, R, S, F, O, G>(
            rt, alloc, command, source, store, out, gate,
        ),
        Err(fault) => Status::Words(fault),
    }
}

/// Carries out a command, or answers what refuses its scenario.
fn run_command<P: Pkt, R: Threads + Sync, S: Source, F: TraceStore, O: Sink, G: Gate + Sync>(
    rt: &R,
    alloc: Global,
    command: Command,
    source: &mut S,
    store: &mut F,
    out: &mut O,
    gate: &G,
) -> Status
    requires range { IsInRange command }
    requires names { (rest : List ℕ) → F.takes store.old (codes "trace" ++ rest) }
    ensures answer { IfSome (S.left source.old) (λ input. IsAnswer (commanded command input).status result) }
    ensures no_words { (fault : WordFault) → result ≢ Status.Words fault }
    ensures untouched { BeforeFiles result ((store.new ≡ store.old) × (out.new ≡ out.old)) }
    ensures input { WhereRead command (result ≡ Status.Done → IfSome (S.left source.old) (λ _. S.left source.new ≡ Some [])) }
    ensures unread { WhereUnread command (source.new ≡ source.old) }
    ensures files { IfSome (S.left source.old) (λ input. result ≡ (commanded command input).status → HasFiles (F.files store.old) (F.files store.new) (commanded command input).files) }
    ensures text { IfSome (S.left source.old) (λ input. result ≡ (commanded command input).status → HasGot (O.got out.old) (O.got out.new) (commanded command input).text) }
    ensures file_prefixes { IfSome (S.left source.old) (λ input. HasFilePrefixes (F.files store.old) (F.files store.new) (commanded command input).files) }
    ensures text_prefix { IfSome (S.left source.old) (λ input. HasGotPrefix (O.got out.old) (O.got out.new) (commanded command input).text) }
    ensures read_fault { result ≡ Status.ReadFault → Rose (S.faults source.old) (S.faults source.new) }
    ensures write_fault { result ≡ Status.WriteFault → Rose (F.faults store.old) (F.faults store.new) ⊎ Rose (O.faults out.old) (O.faults out.new) }
    ensures later { (S.faults source.old ≤ S.faults source.new) × (F.faults store.old ≤ F.faults store.new) × (O.faults out.old ≤ O.faults out.new) }
{
    match command {
        Command::Run { settings } => {
            let command = Command::Run { settings };
            run_source::<P, R, S, F, O, G>(rt, alloc, command, source, store, out, gate)
        }
        Command::Check => {
            run_source::<P, R, S, F, O, G>(rt, alloc, Command::Check, source, store, out, gate)
        }
        Command::Demo { n, settings } => {
            run_demo::<P, R, F, O, G>(rt, alloc, n, settings, store, out, gate)
        }
        Command::Show => show(alloc, source, out),
    }
}

/// Carries out a command on the scenario that the source spells, or answers its refusal.
fn run_source<P: Pkt, R: Threads + Sync, S: Source, F: TraceStore, O: Sink, G: Gate + Sync>(
    rt: &R,
    alloc: Global,
    command: Command,
    source: &mut S,
    store: &mut F,
    out: &mut O,
    gate: &G,
) -> Status
    requires range { IsInRange command }
    requires names { (rest : List ℕ) → F.takes store.old (codes "trace" ++ rest) }
    ensures answer { IfSome (S.left source.old) (λ input. IsAnswer (answered command (scenario_of input)).status result) }
    ensures no_words { (fault : WordFault) → result ≢ Status.Words fault }
    ensures untouched { BeforeFiles result ((store.new ≡ store.old) × (out.new ≡ out.old)) }
    ensures input { result ≡ Status.Done → IfSome (S.left source.old) (λ _. S.left source.new ≡ Some []) }
    ensures files { IfSome (S.left source.old) (λ input. result ≡ (answered command (scenario_of input)).status → HasFiles (F.files store.old) (F.files store.new) (answered command (scenario_of input)).files) }
    ensures text { IfSome (S.left source.old) (λ input. result ≡ (answered command (scenario_of input)).status → HasGot (O.got out.old) (O.got out.new) (answered command (scenario_of input)).text) }
    ensures file_prefixes { IfSome (S.left source.old) (λ input. HasFilePrefixes (F.files store.old) (F.files store.new) (answered command (scenario_of input)).files) }
    ensures text_prefix { IfSome (S.left source.old) (λ input. HasGotPrefix (O.got out.old) (O.got out.new) (answered command (scenario_of input)).text) }
    ensures read_fault { result ≡ Status.ReadFault → Rose (S.faults source.old) (S.faults source.new) }
    ensures write_fault { result ≡ Status.WriteFault → Rose (F.faults store.old) (F.faults store.new) ⊎ Rose (O.faults out.old) (O.faults out.new) }
    ensures later { (S.faults source.old ≤ S.faults source.new) × (F.faults store.old ≤ F.faults store.new) × (O.faults out.old ≤ O.faults out.new) }
{
    let bytes = match read_all(alloc, source, SCENARIO_LIMIT) {
        Ok(bytes) => bytes,
        Err(InputStop::Failed) => return Status::ReadFault,
        Err(InputStop::NoMemory) => return Status::NoMemory,
    };
    run_bytes::<P, R, F, O, G>(rt, alloc, command, bytes.as_slice(), store, out, gate)
}

/// Carries out a command on the scenario that the bytes spell, or answers its refusal.
fn run_bytes<P: Pkt, R: Threads + Sync, F: TraceStore, O: Sink, G: Gate + Sync>(
    rt: &R,
    alloc: Global,
    command: Command,
    bytes: &[u8],
    store: &mut F,
    out: &mut O,
    gate: &G,
) -> Status
    requires range { IsInRange command }
    requires names { (rest : List ℕ) → F.takes store.old (codes "trace" ++ rest) }
    ensures answer { IsAnswer (answered command (scenario_of bytes.now)).status result }
    ensures no_words { (fault : WordFault) → result ≢ Status.Words fault }
    ensures no_read_fault { result ≢ Status.ReadFault }
    ensures untouched { BeforeFiles result ((store.new ≡ store.old) × (out.new ≡ out.old)) }
    ensures short { result ≡ Status.Done → length bytes.now ≤ scenario_limit }
    ensures files { result ≡ (answered command (scenario_of bytes.now)).status → HasFiles (F.files store.old) (F.files store.new) (answered command (scenario_of bytes.now)).files }
    ensures text { result ≡ (answered command (scenario_of bytes.now)).status → HasGot (O.got out.old) (O.got out.new) (answered command (scenario_of bytes.now)).text }
    ensures file_prefixes { HasFilePrefixes (F.files store.old) (F.files store.new) (answered command (scenario_of bytes.now)).files }
    ensures text_prefix { HasGotPrefix (O.got out.old) (O.got out.new) (answered command (scenario_of bytes.now)).text }
    ensures later { (F.faults store.old ≤ F.faults store.new) × (O.faults out.old ≤ O.faults out.new) }
    ensures write_fault { result ≡ Status.WriteFault → Rose (F.faults store.old) (F.faults store.new) ⊎ Rose (O.faults out.old) (O.faults out.new) }
{
    let scenario = match read_scenario(alloc, bytes) {
        Ok(scenario) => scenario,
        Err(ReadStop::Refused(refusal)) => return Status::Scenario(refusal),
        Err(ReadStop::NoMemory) => return Status::NoMemory,
    };
    match carry_out::<P, R, F, O, G>(rt, alloc, command, &scenario, store, out, gate) {
        Ok(()) => Status::Done,
        Err(RunStop::WriteFault) => Status::WriteFault,
        Err(RunStop::Limit { node, time }) => Status::Limit { node, time },
        Err(RunStop::NoMemory) => Status::NoMemory,
    }
}

/// Runs the demo's scenario of a number.
fn run_demo<P: Pkt, R: Threads + Sync, F: TraceStore, O: Sink, G: Gate + Sync>(
    rt: &R,
    alloc: Global,
    n: u32,
    settings: Settings,
    store: &mut F,
    out: &mut O,
    gate: &G,
) -> Status
    requires number { IsUpTo 999 n }
    requires workers { HaveWorkers settings }
    requires names { (rest : List ℕ) → F.takes store.old (codes "trace" ++ rest) }
    ensures answer { IsAnswer (answered (Command.Demo n settings) (Ok (demo_of n))).status result }
    ensures no_words { (fault : WordFault) → result ≢ Status.Words fault }
    ensures no_read_fault { result ≢ Status.ReadFault }
    ensures untouched { BeforeFiles result ((store.new ≡ store.old) × (out.new ≡ out.old)) }
    ensures files { result ≡ (answered (Command.Demo n settings) (Ok (demo_of n))).status → HasFiles (F.files store.old) (F.files store.new) (answered (Command.Demo n settings) (Ok (demo_of n))).files }
    ensures text { result ≡ (answered (Command.Demo n settings) (Ok (demo_of n))).status → HasGot (O.got out.old) (O.got out.new) (answered (Command.Demo n settings) (Ok (demo_of n))).text }
    ensures file_prefixes { HasFilePrefixes (F.files store.old) (F.files store.new) (answered (Command.Demo n settings) (Ok (demo_of n))).files }
    ensures text_prefix { HasGotPrefix (O.got out.old) (O.got out.new) (answered (Command.Demo n settings) (Ok (demo_of n))).text }
    ensures later { (F.faults store.old ≤ F.faults store.new) × (O.faults out.old ≤ O.faults out.new) }
    ensures write_fault { result ≡ Status.WriteFault → Rose (F.faults store.old) (F.faults store.new) ⊎ Rose (O.faults out.old) (O.faults out.new) }
{
    let scenario = match demo_scenario(alloc, n) {
        Ok(scenario) => scenario,
        Err(NoMemory) => return Status::NoMemory,
    };
    match simulate::<P, R, F, O, G>(rt, alloc, settings, &scenario, store, out, gate) {
        Ok(()) => Status::Done,
        Err(RunStop::WriteFault) => Status::WriteFault,
        Err(RunStop::Limit { node, time }) => Status::Limit { node, time },
        Err(RunStop::NoMemory) => Status::NoMemory,
    }
}

/// Carries out a command on a scenario of the input.
fn carry_out<P: Pkt, R: Threads + Sync, F: TraceStore, O: Sink, G: Gate + Sync>(
    rt: &R,
    alloc: Global,
    command: Command,
    scenario: &Scenario,
    store: &mut F,
    out: &mut O,
    gate: &G,
) -> Result<(), RunStop>
    requires range { IsInRange command }
    requires limits { IsWithinLimits scenario.now }
    requires groups { groups_check scenario.now ≡ Ok tt }
    requires names { (rest : List ℕ) → F.takes store.old (codes "trace" ++ rest) }
    ensures done { OnOk result ((finished command scenario.now).status ≡ Status.Done) }
    ensures limit { (node : NodeId) (time : Time) → result ≡ Err (RunStop.Limit node time) → (finished command scenario.now).status ≡ Status.Limit node time }
    ensures files { IsWhole result → HasFiles (F.files store.old) (F.files store.new) (finished command scenario.now).files }
    ensures text { IsWhole result → HasGot (O.got out.old) (O.got out.new) (finished command scenario.now).text }
    ensures file_prefixes { HasFilePrefixes (F.files store.old) (F.files store.new) (finished command scenario.now).files }
    ensures text_prefix { HasGotPrefix (O.got out.old) (O.got out.new) (finished command scenario.now).text }
    ensures later { (F.faults store.old ≤ F.faults store.new) × (O.faults out.old ≤ O.faults out.new) }
    ensures cause { result ≡ Err RunStop.WriteFault → Rose (F.faults store.old) (F.faults store.new) ⊎ Rose (O.faults out.old) (O.faults out.new) }
{
    match command {
        Command::Check => match write_sizes(alloc, scenario, out) {
            Ok(()) => Ok(()),
            Err(stop) => Err(stopped(stop)),
        },
        Command::Run { settings } => {
            simulate::<P, R, F, O, G>(rt, alloc, settings, scenario, store, out, gate)
        }
        Command::Demo { n: _, settings } => {
            simulate::<P, R, F, O, G>(rt, alloc, settings, scenario, store, out, gate)
        }
        Command::Show => Ok(()),
    }
}
