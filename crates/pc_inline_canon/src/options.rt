//! The options of canonical functions: as they are written, and as entries of the graph.

ghost use Rattle.std.specs.Prelude.{◌≡◌, ◌||◌, ℕ, List};
ghost use Rattle.std.specs.List.{list_all};
ghost use Rattle.std.specs.Option.{option_or};
ghost use Rattle.pc_inline_canon.specs.Written.{is_sound_in, options_in, picked, picked_model, picked_options, written};
ghost use Rattle.pc_spec_reading.specs.Options.{callback_in, encoding_in, is_async, is_gc, memory_in, post_return_in};
ghost use Rattle.pc_spec_reading.specs.Options.{realloc_in};

use pc_entity::ModuleInternedTypeIndex;
use pc_inline_state::{CoreId, DataModel, Frame, Options};
use pc_parsed::CanonOption;
use pc_types::StringEncoding;

/// What options say. Of one that is repeated the last counts.
#[derive(Clone, Copy)]
pub struct Written {
    pub encoding: Option<StringEncoding>,
    pub memory: Option<u32>,
    pub realloc: Option<u32>,
    pub post_return: Option<u32>,
    pub callback: Option<u32>,
    pub async_: bool,
    pub gc: bool,
}

impl Written {
    /// One option more.
    fn with(self, option: CanonOption) -> Written
        ensures encoding { result.encoding ≡ option_or (encoding_in option) self.encoding }
        ensures memory { result.memory ≡ option_or (memory_in option) self.memory }
        ensures realloc { result.realloc ≡ option_or (realloc_in option) self.realloc }
        ensures post_return { result.post_return ≡ option_or (post_return_in option) self.post_return }
        ensures callback { result.callback ≡ option_or (callback_in option) self.callback }
        ensures async_ { result.async_ ≡ self.async_ || is_async option }
        ensures gc { result.gc ≡ self.gc || is_gc option }
    {
        let mut written = self;
        match option {
            CanonOption::Utf8 => written.encoding = Some(StringEncoding::Utf8),
            CanonOption::Utf16 => written.encoding = Some(StringEncoding::Utf16),
            CanonOption::CompactUtf16 => written.encoding = Some(StringEncoding::CompactUtf16),
            CanonOption::Async => written.async_ = true,
            CanonOption::Gc => written.gc = true,
            CanonOption::Memory(n) => written.memory = Some(n),
            CanonOption::Realloc(n) => written.realloc = Some(n),
            CanonOption::PostReturn(n) => written.post_return = Some(n),
            CanonOption::Callback(n) => written.callback = Some(n),
            CanonOption::CoreType(_) => {}
        }
        written
    }
}

/// What options say, in one pass.
fn read_options(opts: &[CanonOption]) -> Written
    ensures { result ≡ written opts.now }
{
    let mut written = Written {
        encoding: None,
        memory: None,
        realloc: None,
        post_return: None,
        callback: None,
        async_: false,
        gc: false,
    };
    for option in opts {
        written = written.with(*option);
    }
    written
}

/// Whether the index of an option is sound.
fn is_sound_in(frame: &Frame, option: &CanonOption) -> bool
    ensures { result ≡ is_sound_in frame.now option.now }
{
    match *option {
        CanonOption::Memory(n) => (n as usize) < frame.memories.len(),
        CanonOption::Realloc(n) | CanonOption::PostReturn(n) | CanonOption::Callback(n) => {
            (n as usize) < frame.core_funcs.len()
        }
        _ => true,
    }
}

/// Whether the indices of all options are sound.
fn are_sound_in(frame: &Frame, opts: &[CanonOption]) -> bool
    ensures { result ≡ list_all (is_sound_in frame.now) opts.now }
{
    opts.iter().all(|option| is_sound_in(frame, option))
}

/// The core item at an index that may be left out.
fn picked(ids: &[CoreId], index: Option<u32>) -> Option<CoreId>
    ensures { result ≡ picked ids.now index }
{
    match index {
        Some(index) => ids.get(index as usize).copied(),
        None => None,
    }
}

/// Where values lie.
fn picked_model(frame: &Frame, written: Written) -> DataModel
    ensures { result ≡ picked_model frame.now written }
{
    if written.gc {
        return DataModel::Gc {};
    }
    DataModel::LinearMemory {
        memory: picked(frame.memories.as_slice(), written.memory),
        realloc: picked(frame.core_funcs.as_slice(), written.realloc),
    }
}

/// The options of an item under a core signature, or nothing where an index is unsound.
#[tactic(auto, unfolding(crate::specs::Written::options_in))]
pub fn options_in(
    frame: &Frame,
    core_type: ModuleInternedTypeIndex,
    opts: &[CanonOption],
) -> Option<Options>
    ensures { result ≡ options_in frame.now core_type opts.now }
{
    if !are_sound_in(frame, opts) {
        return None;
    }
    let written = read_options(opts);
    Some(Options {
        instance: frame.component_instance,
        string_encoding: written.encoding.unwrap_or(StringEncoding::Utf8),
        callback: picked(frame.core_funcs.as_slice(), written.callback),
        post_return: picked(frame.core_funcs.as_slice(), written.post_return),
        async_: written.async_,
        core_type,
        data_model: picked_model(frame, written),
    })
}
