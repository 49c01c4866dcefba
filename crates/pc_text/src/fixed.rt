//! The texts that depend on nothing.

ghost use Rattle.std.specs.Prelude.{◌≡◌};
ghost use Rattle.pc_text.specs.FaultText.{bad_form, not_json, too_long};
ghost use Rattle.pc_text.specs.UsageText.{usage};

/// The text for input that is no JSON.
pub fn not_json_text() -> &'static str
    ensures { result.now ≡ not_json }
{
    "fault not-json\n"
}

/// The text for JSON that is no input.
pub fn bad_form_text() -> &'static str
    ensures { result.now ≡ bad_form }
{
    "fault bad-form\n"
}

/// The text for input past the greatest length.
pub fn too_long_text() -> &'static str
    ensures { result.now ≡ too_long }
{
    "fault too-long\n"
}

/// What is answered to words that are no command.
pub fn usage_text() -> &'static str
    ensures { result.now ≡ usage }
{
    "usage: plan translate | plan context | plan facts | plan gen N\n"
}
