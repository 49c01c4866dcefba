//! Words and shapes of the input form, each read as the value beside it.

ghost use Rattle.pc_input_values.specs.Rules.{plain};
ghost use Rattle.pc_input_values.specs.Names.{extern_name};
ghost use Rattle.pc_input_values.specs.Types.{core_sig, decl_type};
ghost use Rattle.pc_input.specs.Canon.{canon_item};
ghost use Rattle.pc_input.specs.Payload.{payload_of};
ghost use Rattle.pc_input.specs.Input.{input_of};
ghost use Rattle.pc_spec_examples.specs.Forms.{AreRead, sig_examples, entry_examples, name_examples};
ghost use Rattle.pc_spec_examples.specs.Forms.{canon_examples, payload_examples, input_examples};

/// Each text is read as the value beside it.
pub fn are_read()
    ensures signatures { AreRead core_sig sig_examples }
    ensures entries { AreRead (decl_type plain) entry_examples }
    ensures names { AreRead (extern_name plain) name_examples }
    ensures canonical { AreRead canon_item canon_examples }
    ensures payloads { AreRead (payload_of plain) payload_examples }
    ensures inputs { AreRead input_of input_examples }
{}
