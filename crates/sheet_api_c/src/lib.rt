// For C and Rust: the calls of crate sheet_api, under the same names, with the same clauses. In C a slice is a pointer and a length.
#![tactic(auto)]

ghost use Rattle.sheet_front.specs.declared.Version.TheVariants.{One, Two};
ghost use Rattle.sheet_api.specs.Calls.{HeaderCall, CountCall, SheetCall};
ghost use Rattle.sheet_api.specs.Writing.{WriteCall, UpCall, DownCall};

// The header of a sheet, as ten words; its n counts all rows, cancelled ones too. A refusal leaves them as they were.
#[unsafe(no_mangle)]
pub extern "C" fn xangoravit_read_header(
    bytes: &[u8],
    rows: usize,
    cols: usize,
    header: &mut [u64],
) -> u64
    ensures { HeaderCall bytes.now rows cols header.old result header.new }
{
    sheet_api::xangoravit_read_header(bytes, rows, cols, header)
}

// The header again, whose n is how many rows remain: x and y are lent for these. The place of a refusal is one word, and a refusal leaves the header's.
#[unsafe(no_mangle)]
pub extern "C" fn xangoravit_count_rows(
    bytes: &[u8],
    rows: usize,
    cols: usize,
    header: &mut [u64],
    place: &mut [u64],
) -> u64
    ensures { CountCall bytes.now rows cols header.old place.old result header.new place.new }
{
    sheet_api::xangoravit_count_rows(bytes, rows, cols, header, place)
}

// A sheet into x and y, its header as ten words, and the place of a refusal as one. A refusal leaves all but the place as it was.
#[unsafe(no_mangle)]
pub extern "C" fn xangoravit_read_sheet(
    bytes: &[u8],
    rows: usize,
    cols: usize,
    x: &mut [f64],
    y: &mut [f64],
    header: &mut [u64],
    place: &mut [u64],
) -> u64
    ensures { SheetCall bytes.now rows cols x.old y.old header.old place.old
        result header.new place.new x.new y.new }
{
    sheet_api::xangoravit_read_sheet(bytes, rows, cols, x, y, header, place)
}

// A sheet of version 1 from n rows of p features, at the front of `out`: 38 + n(12 + 8p) bytes. The place of a refusal is one word; a refusal leaves `out`.
#[unsafe(no_mangle)]
pub extern "C" fn xangoravit_write_sheet_1(
    n: usize,
    p: usize,
    settings: &[u64],
    sources: &[u16],
    targets: &[u16],
    x: &[f64],
    y: &[f64],
    out: &mut [u8],
    place: &mut [u64],
) -> u64
    ensures { WriteCall One n p settings.now sources.now targets.now x.now y.now out.old
        place.old result place.new out.new }
{
    sheet_api::xangoravit_write_sheet_1(n, p, settings, sources, targets, x, y, out, place)
}

// The same of version 2, with a family: 42 + n(12 + 8p) bytes.
#[unsafe(no_mangle)]
pub extern "C" fn xangoravit_write_sheet_2(
    family: u32,
    n: usize,
    p: usize,
    settings: &[u64],
    sources: &[u16],
    targets: &[u16],
    x: &[f64],
    y: &[f64],
    out: &mut [u8],
    place: &mut [u64],
) -> u64
    ensures { WriteCall (Two family) n p settings.now sources.now targets.now x.now y.now
        out.old place.old result place.new out.new }
{
    sheet_api::xangoravit_write_sheet_2(family, n, p, settings, sources, targets, x, y, out, place)
}

// A sheet of version 1 with a family, at the front of `out`. Two words: its bytes, and the family; the place of a refusal is one. A refusal leaves all but that.
#[unsafe(no_mangle)]
pub extern "C" fn xangoravit_move_up(
    bytes: &[u8],
    family: u32,
    out: &mut [u8],
    moved: &mut [u64],
    place: &mut [u64],
) -> u64
    ensures { UpCall bytes.now family out.old moved.old place.old
        result moved.new place.new out.new }
{
    sheet_api::xangoravit_move_up(bytes, family, out, moved, place)
}

// A sheet of version 2 without its family, at the front of `out`; the family is the second word. A refusal leaves all but the place.
#[unsafe(no_mangle)]
pub extern "C" fn xangoravit_move_down(
    bytes: &[u8],
    out: &mut [u8],
    moved: &mut [u64],
    place: &mut [u64],
) -> u64
    ensures { DownCall bytes.now out.old moved.old place.old
        result moved.new place.new out.new }
{
    sheet_api::xangoravit_move_down(bytes, out, moved, place)
}
