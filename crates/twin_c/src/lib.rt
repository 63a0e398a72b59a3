// The functions that C calls: each is that of `twin` of the same name, with the same promise. The header include/dramulenz.h says
// what a C caller must pass.
#![tactic(auto)]

ghost use Rattle.std.specs.Prelude.{◌≡◌};
ghost use Rattle.twin.specs.Answers.{terms_of, mark_number, mark_room, check_number, write_number, write_room, root_number};

/// Marks every point of a series: [`twin::dramulenz_mark`].
#[unsafe(no_mangle)]
pub extern "C" fn dramulenz_mark(
    values: &[u8],
    ucl: f64,
    cl: f64,
    lcl: f64,
    set: u32,
    marks: &mut [u8],
) -> u64
    ensures answer { result ≡ mark_number (terms_of ucl cl lcl) set values.now marks.old }
    ensures marks { marks.new ≡ mark_room (terms_of ucl cl lcl) set values.now marks.old }
{
    twin::dramulenz_mark(values, ucl, cl, lcl, set, marks)
}

/// Checks the bytes of a mark sheet: [`twin::dramulenz_check`].
#[unsafe(no_mangle)]
pub extern "C" fn dramulenz_check(
    values: &[u8],
    ucl: f64,
    cl: f64,
    lcl: f64,
    set: u32,
    sheet: &[u8],
) -> u64
    ensures { result ≡ check_number (terms_of ucl cl lcl) set values.now sheet.now }
{
    twin::dramulenz_check(values, ucl, cl, lcl, set, sheet)
}

/// Writes the mark sheet of a series: [`twin::dramulenz_write`].
#[unsafe(no_mangle)]
pub extern "C" fn dramulenz_write(
    values: &[u8],
    ucl: f64,
    cl: f64,
    lcl: f64,
    set: u32,
    sheet: &mut [u8],
) -> u64
    ensures answer { result ≡ write_number (terms_of ucl cl lcl) set values.now sheet.old }
    ensures room { sheet.new ≡ write_room (terms_of ucl cl lcl) set values.now sheet.old }
{
    twin::dramulenz_write(values, ucl, cl, lcl, set, sheet)
}

/// The square root, rounded to the nearest f64: [`twin::dramulenz_root`].
#[unsafe(no_mangle)]
pub extern "C" fn dramulenz_root(x: f64) -> f64
    ensures { result ≡ root_number x }
{
    twin::dramulenz_root(x)
}
