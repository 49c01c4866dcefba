//! What is known of every generated input. Each function does nothing: its contract is the law.

ghost use Rattle.std.specs.Prelude.{◌≡◌, ◌≤◌, ℕ, true, None};
ghost use Rattle.pc_parsed.specs.Program.{is_numbered};
ghost use Rattle.pc_parsed.specs.StaticFault.{static_fault};
ghost use Rattle.pc_generate.specs.Generated.{payloads};
ghost use Rattle.pc_generate.specs.Table.{table};
ghost use Rattle.pc_generate.specs.Valid.{IsValid};

/// The entries of its table and its items can be numbered.
pub fn can_be_numbered()
    ensures { (n : ℕ) → n ≤ 10000 → is_numbered table (payloads n) ≡ true }
{}

/// It has no static fault.
pub fn has_no_fault()
    ensures { (n : ℕ) → static_fault table None (payloads n) ≡ None }
{}

/// Its reading ends with a result.
pub fn is_valid()
    ensures { (n : ℕ) → n ≤ 10000 → IsValid n }
{}
