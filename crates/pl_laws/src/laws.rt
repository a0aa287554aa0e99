ghost use Rattle.std.specs.Prelude.{◌≡◌, ◌<◌, ℕ, ℤ, List, None};
ghost use Rattle.pl_resource.specs.declared.value.Fault.{Fault};
ghost use Rattle.c_meaning.specs.declared.action.Event.{Event};
ghost use Rattle.c_meaning.specs.Events.{State};
ghost use Rattle.c_meaning.specs.Steps.{Faults, Replay, race_at};
ghost use Rattle.pl_syntax.specs.Tree.{FunDecl};
ghost use Rattle.pl_syntax.specs.Straight.{IsMain};
ghost use Rattle.pl_deriv.specs.Derivations.{Derives};
ghost use Rattle.pl_source.specs.Good.{Good};
ghost use Rattle.pl_erase.specs.Emitted.{emitted, program_of};
ghost use Rattle.pl_laws.specs.SameRuns.{SameRuns};

/// The law of runs: a `main` that derives is good. Every run of it, on every input, has an annotation, and in each of its
/// states no thread faults, no two race, and each thread has ended or stands before an event.
pub fn run_laws()
    ensures good { (f : FunDecl) → IsMain f → Derives f → Good f }
{}

/// The law of same runs: the runs of a `main` that derives and those of its C program are the same, on every input. So after
/// every run of the C program no thread stands before a fault, and no two race.
pub fn same_run_laws()
    ensures same { (f : FunDecl) → IsMain f → Derives f → SameRuns f (emitted (program_of f)) }
    ensures sound { (f : FunDecl) → IsMain f → Derives f → (input : List ℤ) (events : List Event) (state : State) → Replay (emitted (program_of f)) input events state → ((t : ℕ) (fault : Fault) → Faults (emitted (program_of f)) state t fault → ⊥) × ((s t : ℕ) → s < t → race_at (emitted (program_of f)) state s t ≡ None) }
{}
