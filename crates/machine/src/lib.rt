// The plain machine: what the calls of an engine answer, by the rules alone.
#![tactic(auto)]

ghost use Rattle.machine.specs.Figures.{Figures};
ghost use Rattle.machine.specs.Laws.{MachineLaws, RecordLaws};
ghost use Rattle.machine.specs.Runs.{Runs};

use operation::Operation;
use transport::Transport;

// The laws of every record of calls whose answers are the plain machine's: what each end has written
// and counted, turns of different ranks that trade positions, progress, and the refusals in their order.
pub fn record_laws<E>()
    ensures { MachineLaws E }
{}

// The same of an engine made of these two.
pub fn made_laws<O: Operation, T: Transport>(name: u16, operation: &O, transport: &T)
    ensures { RecordLaws name (O.meaning operation.now) (T.meaning transport.now) }
{}

// Three whole runs: a scan with refused calls on the way, two jobs beside each other, one abandoned.
pub fn runs_stand()
    ensures { Runs }
{}

// All worked figures.
pub fn figures_stand()
    ensures { Figures }
{}
