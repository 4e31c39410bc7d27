//! The functions of `cam_abi` under their names for callers in C and Rust, each with its contract:
//! crates/cam_abi/cam.h declares them. A slice is passed as its pointer and its length in elements.
#![tactic(auto)]

ghost use Rattle.std.specs.Prelude.{◌≡◌, []};
ghost use Rattle.geometry.specs.Sizes.{match_words};
ghost use Rattle.geometry.specs.Stages.{indicator_words};
ghost use Rattle.reference.specs.Calls.{clear, write, erase, read, first_match, next_match, all_match};
ghost use Rattle.calls.specs.Answers.{tables};
ghost use Rattle.codes.specs.Codes.{size_code, four, Coded, CodedReading, ResumeCoded};

/// As `cam_abi::cam_indicator_words`.
#[unsafe(no_mangle)]
pub extern "C" fn cam_indicator_words(
    kind: u32,
    depth: u32,
    pattern_width: u32,
    set_width: u32,
) -> u64
    ensures { result ≡ size_code (four kind depth pattern_width set_width) indicator_words }
{
    cam_abi::cam_indicator_words(kind, depth, pattern_width, set_width)
}

/// As `cam_abi::cam_match_words`.
#[unsafe(no_mangle)]
pub extern "C" fn cam_match_words(kind: u32, depth: u32, pattern_width: u32, set_width: u32) -> u64
    ensures { result ≡ size_code (four kind depth pattern_width set_width) match_words }
{
    cam_abi::cam_match_words(kind, depth, pattern_width, set_width)
}

/// As `cam_abi::cam_resume`.
#[unsafe(no_mangle)]
pub extern "C" fn cam_resume(
    kind: u32,
    depth: u32,
    pattern_width: u32,
    set_width: u32,
    store: &[u32],
    indicators: &[u64],
) -> u64
    ensures { ResumeCoded (four kind depth pattern_width set_width) result
        (tables store.now indicators.now) (tables store.now indicators.now) }
{
    cam_abi::cam_resume(kind, depth, pattern_width, set_width, store, indicators)
}

/// As `cam_abi::cam_clear`.
#[unsafe(no_mangle)]
pub extern "C" fn cam_clear(
    kind: u32,
    depth: u32,
    pattern_width: u32,
    set_width: u32,
    store: &mut [u32],
    indicators: &mut [u64],
) -> u64
    ensures { Coded (four kind depth pattern_width set_width) clear result
        (tables store.old indicators.old) (tables store.new indicators.new) [] }
{
    cam_abi::cam_clear(kind, depth, pattern_width, set_width, store, indicators)
}

/// As `cam_abi::cam_write`.
#[unsafe(no_mangle)]
pub extern "C" fn cam_write(
    kind: u32,
    depth: u32,
    pattern_width: u32,
    set_width: u32,
    store: &mut [u32],
    indicators: &mut [u64],
    address: u32,
    pattern: u32,
) -> u64
    ensures { Coded (four kind depth pattern_width set_width) (write address pattern) result
        (tables store.old indicators.old) (tables store.new indicators.new) [] }
{
    cam_abi::cam_write(
        kind,
        depth,
        pattern_width,
        set_width,
        store,
        indicators,
        address,
        pattern,
    )
}

/// As `cam_abi::cam_erase`.
#[unsafe(no_mangle)]
pub extern "C" fn cam_erase(
    kind: u32,
    depth: u32,
    pattern_width: u32,
    set_width: u32,
    store: &mut [u32],
    indicators: &mut [u64],
    address: u32,
) -> u64
    ensures { Coded (four kind depth pattern_width set_width) (erase address) result
        (tables store.old indicators.old) (tables store.new indicators.new) [] }
{
    cam_abi::cam_erase(
        kind,
        depth,
        pattern_width,
        set_width,
        store,
        indicators,
        address,
    )
}

/// As `cam_abi::cam_read`.
#[unsafe(no_mangle)]
pub extern "C" fn cam_read(
    kind: u32,
    depth: u32,
    pattern_width: u32,
    set_width: u32,
    store: &[u32],
    indicators: &[u64],
    address: u32,
) -> u64
    ensures { CodedReading (four kind depth pattern_width set_width) (read address) result
        (tables store.now indicators.now) [] }
{
    cam_abi::cam_read(
        kind,
        depth,
        pattern_width,
        set_width,
        store,
        indicators,
        address,
    )
}

/// As `cam_abi::cam_first_match`.
#[unsafe(no_mangle)]
pub extern "C" fn cam_first_match(
    kind: u32,
    depth: u32,
    pattern_width: u32,
    set_width: u32,
    store: &[u32],
    indicators: &[u64],
    pattern: u32,
) -> u64
    ensures { CodedReading (four kind depth pattern_width set_width) (first_match pattern) result
        (tables store.now indicators.now) [] }
{
    cam_abi::cam_first_match(
        kind,
        depth,
        pattern_width,
        set_width,
        store,
        indicators,
        pattern,
    )
}

/// As `cam_abi::cam_next_match`.
#[unsafe(no_mangle)]
pub extern "C" fn cam_next_match(
    kind: u32,
    depth: u32,
    pattern_width: u32,
    set_width: u32,
    store: &[u32],
    indicators: &[u64],
    address: u32,
    pattern: u32,
) -> u64
    ensures { CodedReading (four kind depth pattern_width set_width) (next_match address pattern)
        result (tables store.now indicators.now) [] }
{
    cam_abi::cam_next_match(
        kind,
        depth,
        pattern_width,
        set_width,
        store,
        indicators,
        address,
        pattern,
    )
}

/// As `cam_abi::cam_all_match`.
#[unsafe(no_mangle)]
pub extern "C" fn cam_all_match(
    kind: u32,
    depth: u32,
    pattern_width: u32,
    set_width: u32,
    store: &[u32],
    indicators: &[u64],
    matches: &mut [u64],
    pattern: u32,
) -> u64
    ensures { CodedReading (four kind depth pattern_width set_width) (all_match pattern matches.old)
        result (tables store.now indicators.now) matches.new }
{
    cam_abi::cam_all_match(
        kind,
        depth,
        pattern_width,
        set_width,
        store,
        indicators,
        matches,
        pattern,
    )
}
