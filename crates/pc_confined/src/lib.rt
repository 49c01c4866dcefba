//! What a reading does stays within component instances, and so does the run of a plan that does the same; and from an
//! adapter that need not keep the state of a thread nothing is reached that may see it. Each function does nothing: its
//! contract is the law.
#![tactic(auto)]

ghost use Rattle.std.specs.Prelude.{◌≡◌, ℕ, List, Option, Some};
ghost use Rattle.pc_types.specs.declared.module_record.ModuleRecord.{ModuleRecord};
ghost use Rattle.pc_types.specs.declared.parsed.TypeTable.{TypeTable};
ghost use Rattle.pc_spec_plan.specs.ExportNode.{NamedNode};
ghost use Rattle.pc_spec_plan.specs.Log.{Entry};
ghost use Rattle.pc_spec_plan.specs.Machine.{State};
ghost use Rattle.pc_spec_plan.specs.PlanView.{PlanView};
ghost use Rattle.pc_parsed.specs.declared.payload.Payload.{Payload};
ghost use Rattle.pc_parsed.specs.Mark.{Mark};
ghost use Rattle.pc_spec_reading.specs.Item.{Items};
ghost use Rattle.pc_spec_reading.specs.Outcome.{done};
ghost use Rattle.pc_spec_reading.specs.Reading.{Reading, reading, reading_of};
ghost use Rattle.pc_spec_wiring.specs.Confined.{IsConfined, IsConfinedRun};
ghost use Rattle.pc_spec_wiring.specs.Reached.{KeepsThreadsIn};
ghost use Rattle.pc_confined.specs.Runs.{DoesAsTold};

/// The log of a body that has been read is confined.
pub fn readings_are_confined()
    ensures { (t : TypeTable) (ms : List ModuleRecord) (limit : ℕ) (counted : Option ℕ) (body : Items)
        (r : Reading) → reading_of t ms limit counted body ≡ done r → IsConfined r.log }
{}

/// So is the log of a list of payloads.
pub fn lists_are_confined()
    ensures { (t : TypeTable) (exposed : Option (List ℕ)) (limit : ℕ) (counted : Option ℕ) (ps : List Payload)
        (r : Reading) → reading t exposed limit counted ps ≡ Some (done r) → IsConfined r.log }
{}

/// In a confined log no transparent adapter leads to what may see the state of a thread, whatever the root exports.
pub fn confined_logs_keep_threads()
    ensures { (log : List (Entry Mark)) (nodes : List (NamedNode Mark)) → IsConfined log → KeepsThreadsIn log nodes }
{}

/// A run of a plan that does as a confined log tells is confined too, whatever marks stand for types in the plan.
pub fn runs_are_confined<T>()
    ensures { (p : PlanView T) (last : State T) (log : List (Entry Mark)) → IsConfined log → DoesAsTold p last log
        → IsConfinedRun p last }
{}
