//! Builtins of the canonical ABI.

ghost use Rattle.pc_spec_examples.specs.Means.{Means};
ghost use Rattle.pc_spec_examples.specs.Builtins.{two_drops_text, two_drops, slot_two_text, slot_two, typed_builtins_text};
ghost use Rattle.pc_spec_examples.specs.Builtins.{typed_builtins, task_builtins_text, task_builtins};
ghost use Rattle.pc_spec_examples.specs.OtherBuiltins.{other_builtins_text, other_builtins, slot_twice_text, slot_twice};
ghost use Rattle.pc_spec_examples.specs.OtherBuiltins.{unknown_resource_text, unknown_resource, no_stream_text, no_stream};
ghost use Rattle.pc_spec_examples.specs.OtherBuiltins.{no_signature_text, stuck_type, no_memory_text, stuck_index};
ghost use Rattle.pc_spec_examples.specs.OtherBuiltins.{no_table_text, no_result_text};

/// Each text means the outcome beside it.
pub fn are_read()
    ensures two_drops { Means two_drops_text two_drops }
    ensures slot_two { Means slot_two_text slot_two }
    ensures typed_builtins { Means typed_builtins_text typed_builtins }
    ensures task_builtins { Means task_builtins_text task_builtins }
{}

/// Likewise, with what builtins are stuck at.
pub fn others_are_read()
    ensures other_builtins { Means other_builtins_text other_builtins }
    ensures slot_twice { Means slot_twice_text slot_twice }
    ensures unknown_resource { Means unknown_resource_text unknown_resource }
    ensures no_stream { Means no_stream_text no_stream }
    ensures no_signature { Means no_signature_text stuck_type }
    ensures no_memory { Means no_memory_text stuck_index }
    ensures no_table { Means no_table_text stuck_index }
    ensures no_result { Means no_result_text stuck_type }
{}
