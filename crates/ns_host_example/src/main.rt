//! A host of plug-ins that it doesn't trust, as an example: it compiles their texts, runs each within limits, and sends to it.
//! What a host may send is said in `crates/ns_machine/specs/Asking.antt`.
//! Stands on machine, session and actors, as a program of its own.
#![tactic(auto)]

ghost use Rattle.ns_moves.specs.State.{world_of};
ghost use Rattle.ns_machine_report.specs.Ending.{IsLiveEnding};

mod pair;
mod plugin;

use ns_base::no_memory::NoMemory;
use ns_machine::machine::Machine;
use ns_world::ending::Ending;
use ns_world::value::Value;
use pair::trade;
use plugin::machine_of;
use std::io;
use std::io::Write;

/// Keeps a sum from one send to the next.
const ADDER: &str = "class Plugin packageUsing: manifest = (| private sum ::= 0. |) (
public add: n = (sum:: sum + n. ^sum)
public main: platform args: args = (^self)
)
";

/// Never answers.
const SPINNER: &str = "class Plugin packageUsing: manifest = () (
public add: n = ([true] whileTrue: [])
public main: platform args: args = (^self)
)
";

/// Looks for the console.
const SNOOP: &str = "class Plugin packageUsing: manifest = (| private found. |) (
public add: n = (found console printLine: 'out')
public main: platform args: args = (found:: platform)
)
";

/// Is no program.
const NONSENSE: &str = "class Plugin packageUsing: manifest = (";

fn main(rt: HostRuntime) -> Result<(), io::Error> {
    host(&rt, "adder", ADDER)?;
    host(&rt, "spinner", SPINNER)?;
    host(&rt, "snoop", SNOOP)?;
    host(&rt, "nonsense", NONSENSE)?;
    trade(&rt)
}

/// Makes a machine for a plug-in, lets its run begin, and asks what that answered.
fn host(rt: &HostRuntime, name: &str, source: &str) -> Result<(), io::Error> {
    println!(rt; "{name}")?;
    match machine_of(rt.alloc(), source) {
        Some(machine) => {
            let mut machine = machine;
            run(rt, &mut machine)
        }
        None => println!(rt; "refused"),
    }
}

/// Lets the run of a plug-in begin, and asks what that answered.
fn run(rt: &HostRuntime, machine: &mut Machine) -> Result<(), io::Error> {
    match machine.run() {
        Ending::Done(plugin) => {
            ask(rt, machine, plugin, "add:", 3)?;
            ask(rt, machine, plugin, "add:", 4)?;
            ask(rt, machine, plugin, "open:", 1)
        }
        ending => tell(rt, machine, ending),
    }
}

/// Sends a name with a number to a value of the run, and tells what that came to.
fn ask(
    rt: &HostRuntime,
    machine: &mut Machine,
    receiver: Value,
    name: &str,
    number: i64,
) -> Result<(), io::Error> {
    match machine.ask(receiver, name.as_bytes(), &[Value::Int(number)]) {
        Some(ending) => tell(rt, machine, ending),
        None => println!(rt; "{name} can't be asked"),
    }
}

/// Tells how a run or a send has ended.
fn tell(rt: &HostRuntime, machine: &Machine, ending: Ending) -> Result<(), io::Error>
    requires { IsLiveEnding (world_of machine.now.state).cells machine.now.code ending }
{
    match machine.report(rt.alloc(), &ending, machine.code().files.as_slice()) {
        Ok(line) => rt.stdout().write_all(line.as_slice()),
        Err(NoMemory) => println!(rt; "no memory"),
    }
}
