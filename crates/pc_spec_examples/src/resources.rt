//! How resources become known, and to whom.

ghost use Rattle.pc_spec_examples.specs.Means.{Means};
ghost use Rattle.pc_spec_examples.specs.Resources.{given_resource_text, given_resource, exported_resource_text};
ghost use Rattle.pc_spec_examples.specs.Resources.{exported_resource, made_twice_text, made_twice, declared_again_text};
ghost use Rattle.pc_spec_examples.specs.Resources.{declared_again, forgotten_text, forgotten, not_exported_text};
ghost use Rattle.pc_spec_examples.specs.Resources.{not_exported};

/// Each text means the outcome beside it.
pub fn are_read()
    ensures given_resource { Means given_resource_text given_resource }
    ensures exported_resource { Means exported_resource_text exported_resource }
    ensures made_twice { Means made_twice_text made_twice }
    ensures declared_again { Means declared_again_text declared_again }
    ensures forgotten { Means forgotten_text forgotten }
    ensures not_exported { Means not_exported_text not_exported }
{}
