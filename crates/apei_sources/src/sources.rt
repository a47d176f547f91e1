//! The error sources of a HEST, by their types.

ghost use Rattle.std.specs.Prelude.{◌≡◌, ◌≤◌, ◌<◌, length, IfOk, IfSome};
ghost use Rattle.apei_sources.specs.Sources.{plain, with_banks, layout_of, banks_of, size_at};

use crate::TableRefused;
use ras_base::little_endian::u16_at;

// How many bytes a source of a type has besides its banks and, if the type has banks, at which of
// these bytes their count is.
#[derive(Clone, Copy)]
pub(crate) struct Layout {
    fixed: usize,
    banks_at: Option<usize>,
}

/// The bytes of each bank.
pub const BANK_LENGTH: usize = 28;

/// The bytes of a source's type and identifier.
pub const SOURCE_HEAD_LENGTH: usize = 4;

impl Layout {
    fn plain(fixed: usize) -> Layout
        ensures { result ≡ plain fixed }
    {
        Layout {
            fixed,
            banks_at: None,
        }
    }

    fn with_banks(fixed: usize, place: usize) -> Layout
        ensures { result ≡ with_banks fixed place }
    {
        Layout {
            fixed,
            banks_at: Some(place),
        }
    }
}

// Returns the layout of a type of source, or `None` if the type isn't known.
#[tactic(auto, unfolding(crate::specs::Sources::layouts))]
fn layout_of(kind: u16) -> Option<Layout>
    ensures layout { result ≡ layout_of kind }
    ensures banks { IfSome result (λ layout. IfSome layout.banks_at (λ place. place < layout.fixed)) }
{
    match kind {
        0 => Some(Layout::with_banks(40, 32)),
        1 | 11 => Some(Layout::with_banks(48, 44)),
        2 => Some(Layout::plain(20)),
        6 => Some(Layout::plain(48)),
        7 => Some(Layout::plain(44)),
        8 => Some(Layout::plain(56)),
        9 => Some(Layout::plain(64)),
        10 => Some(Layout::plain(92)),
        _ => None,
    }
}

// Returns how many bytes the source at the front has.
#[tactic(auto, unfolding(crate::specs::Sources::size_at))]
pub(crate) fn size_at(bytes: &[u8]) -> Result<usize, TableRefused>
    ensures answer { result ≡ size_at bytes.now }
    ensures inside { IfOk result (λ size. size ≤ length bytes.now) }
    ensures head { IfOk result (λ size. SOURCE_HEAD_LENGTH ≤ length bytes.now) }
{
    if bytes.len() < SOURCE_HEAD_LENGTH {
        return Err(TableRefused::SourceOut);
    }
    let Some(layout) = layout_of(u16_at(bytes, 0)) else {
        return Err(TableRefused::SourceType);
    };
    if bytes.len() < layout.fixed {
        return Err(TableRefused::SourceOut);
    }
    let size = layout.fixed + BANK_LENGTH * bank_count(layout, bytes);
    if bytes.len() < size {
        return Err(TableRefused::SourceOut);
    }
    Ok(size)
}

// Returns how many banks a source has.
fn bank_count(layout: Layout, source: &[u8]) -> usize
    requires { IfSome layout.banks_at (λ place. place < length source.now) }
    ensures value { result ≡ banks_of layout.banks_at source.now }
    ensures small { result < 256 }
{
    match layout.banks_at {
        Some(place) => source[place] as usize,
        None => 0,
    }
}
