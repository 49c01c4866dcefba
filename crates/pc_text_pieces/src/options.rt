//! The options of lifted and lowered functions, a line each.

ghost use Rattle.std.specs.Prelude.{◌≡◌, ◌++◌, map, OnOk};
ghost use Rattle.pc_spec_plan.specs.Text.{async_flag, encoding_name, model, numbered, options_line, plan_options};
ghost use Rattle.pc_info.specs.Options.{model_view, options_view};

use crate::piece::{put, put_key, put_maybe_key, put_number};
use pc_entity::NoMemory;
use pc_info::{CanonicalOptions, CanonicalOptionsDataModel};
use pc_types::StringEncoding;

/// The word for a string encoding.
pub fn encoding_word(encoding: StringEncoding) -> &'static str
    ensures { result.now ≡ encoding_name encoding }
{
    match encoding {
        StringEncoding::Utf8 => "utf8",
        StringEncoding::Utf16 => "utf16",
        StringEncoding::CompactUtf16 => "compact-utf16",
    }
}

/// The word for async or not, after a space.
pub fn async_word(is_async: bool) -> &'static str
    ensures { result.now ≡ async_flag is_async }
{
    if is_async { " async" } else { " sync" }
}

/// Memory and realloc, each after a space, or the word for the managed heap.
fn put_model(out: &mut Vec<u8>, data_model: CanonicalOptionsDataModel) -> Result<(), NoMemory>
    ensures { OnOk result (out.new.items ≡ out.old.items ++ model (model_view data_model)) }
{
    match data_model {
        CanonicalOptionsDataModel::Gc {} => put(out, " gc"),
        CanonicalOptionsDataModel::LinearMemory(linear) => {
            put_maybe_key(out, linear.memory)?;
            put_maybe_key(out, linear.realloc)
        }
    }
}

/// The options, from the component instance on.
fn put_options(out: &mut Vec<u8>, options: &CanonicalOptions) -> Result<(), NoMemory>
    ensures { OnOk result (out.new.items ≡ out.old.items ++ plan_options (options_view options.now)) }
{
    put_key(out, options.instance)?;
    put(out, " ")?;
    put(out, encoding_word(options.string_encoding))?;
    put(out, async_word(options.async_))?;
    put_maybe_key(out, options.callback)?;
    put_maybe_key(out, options.post_return)?;
    put_model(out, options.data_model)
}

/// The line of an entry, with its number.
fn put_options_line(out: &mut Vec<u8>, n: usize, options: &CanonicalOptions) -> Result<(), NoMemory>
    ensures { OnOk result (out.new.items ≡ out.old.items ++ options_line n (options_view options.now)) }
{
    put(out, "options")?;
    put_number(out, n as u64)?;
    put_options(out, options)?;
    put(out, "\n")
}

/// A line for each entry of the plan's options, with its number.
pub fn put_all_options(out: &mut Vec<u8>, all: &[CanonicalOptions]) -> Result<(), NoMemory>
    ensures { OnOk result (out.new.items
        ≡ out.old.items ++ numbered options_line 0 (map options_view all.now)) }
{
    for (n, options) in all.iter().enumerate() {
        put_options_line(out, n, options)?;
    }
    Ok(())
}
