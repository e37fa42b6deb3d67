// Where each field stands in an image, and in a record's own bytes.
ghost use Rattle.std.specs.Prelude.{◌≡◌};
ghost use Rattle.image_parts.specs.Layout.{Lawful, layout_of, length_at, no_link, records_at_lem, record_size_lem, image_size_lem};
ghost use Rattle.image_parts.specs.Read.{number_in};

use pool_state::{LISTS, POOL};

// A version of the image is a value: its number, its number of records, the bytes of a link, and those of a low figure after the heads.
#[derive(Clone, Copy)]
pub struct Layout {
    pub version: u64,
    pub records: usize,
    pub link: usize,
    pub low: usize,
}

// The bytes of an address, of the total and of a low figure.
pub const WORD: usize = 8;

pub const LENGTH: usize = 1;

pub const TOTAL: usize = LENGTH + 4;

pub const FIRST: usize = TOTAL + WORD;

pub const END: usize = WORD;

pub const ENABLED: usize = END + WORD;

pub const LINKS: usize = ENABLED + 1;

// ---- what is written

pub const VERSION: u64 = 3;

// The bytes of a link, and the number that stands for no record.
pub const LINK: usize = 2;

pub const NO_LINK: u16 = 65535;

// The bytes of the low figure.
pub const LOW: usize = WORD;

pub const HEADS: usize = FIRST + LINK;

pub const LOWEST: usize = HEADS + LINK * LISTS;

pub const RECORDS: usize = LOWEST + LOW;

pub const RECORD: usize = LINKS + LINK * 4;

pub const IMAGE: usize = RECORDS + RECORD * POOL;

// The length field: the bytes after it.
pub const REST: u64 = (IMAGE - TOTAL) as u64;

// ---- the versions

// Of before: 64 records, and a byte for a link.
pub const VERSION_1: Layout = Layout {
    version: 1,
    records: 64,
    link: 1,
    low: 0,
};

// Of before: no low figure.
pub const VERSION_2: Layout = Layout {
    version: 2,
    records: POOL,
    link: 2,
    low: 0,
};

pub const CURRENT: Layout = Layout {
    version: VERSION,
    records: POOL,
    link: LINK,
    low: LOW,
};

// The layout that the first byte tells.
pub fn layout_of(image: &[u8]) -> Layout
    ensures { result ≡ layout_of (number_in image.now 0 length_at) }
{
    match image.first().copied().unwrap_or(0) {
        1 => VERSION_1,
        2 => VERSION_2,
        _ => CURRENT,
    }
}

// ---- the figures of any layout

// The number that stands for no record.
pub fn no_link(form: Layout) -> u64
    requires { Lawful form }
    ensures { result ≡ no_link form }
{
    match form.link {
        2 => 65535,
        1 => 255,
        _ => 0,
    }
}

// Where the records begin.
pub fn records_at(form: Layout) -> usize
    requires { Lawful form }
    ensures { result ≡ records_at_lem form }
{
    FIRST + form.link + form.link * LISTS + form.low
}

// The bytes of a record.
pub fn record_size(form: Layout) -> usize
    requires { Lawful form }
    ensures { result ≡ record_size_lem form }
{
    LINKS + form.link * 4
}

// The bytes of an image.
pub fn image_size(form: Layout) -> usize
    requires { Lawful form }
    ensures { result ≡ image_size_lem form }
{
    records_at(form) + record_size(form) * form.records
}
