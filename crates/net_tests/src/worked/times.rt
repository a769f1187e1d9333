//! Rows of moments and of lengths of time.
use crate::assertions::{Expected, assert_holds};
use net_base::time::{Duration, Instant};
use std::fmt::Write;

/// Returns whether this is a moment's text.
fn moment_has_text(moment: Instant, text: &'static str) -> bool {
    let mut expected = Expected::of(text);
    write!(expected, "{moment}").is_ok() && expected.is_whole()
}

/// Returns whether this is a length's text.
fn length_has_text(length: Duration, text: &'static str) -> bool {
    let mut expected = Expected::of(text);
    write!(expected, "{length}").is_ok() && expected.is_whole()
}

/// A name, milliseconds, the text, and the parts: seconds, milliseconds and microseconds.
type Moment = (&'static str, i64, &'static str, (i64, i64, i64));

static MOMENTS: [Moment; 5] = rows! {
    ("milliseconds_alone", 74, "0.074s", (0, 74, 74_000));
    ("seconds_and_milliseconds", 5_674, "5.674s", (5, 674, 674_000));
    ("seconds_alone", 5_000, "5.000s", (5, 0, 0));
    ("a_moment_before_the_origin", -5, "0.0-5s", (0, -5, -5_000));
    ("a_second_before_the_origin", -1_500, "-1.-500s", (-1, -500, -500_000));
};

/// Returns whether a moment of so many milliseconds has this text and these parts.
fn is_moment(millis: i64, text: &'static str, parts: (i64, i64, i64)) -> bool {
    if !Instant::fits_millis(millis) {
        return false;
    }
    let it = Instant::from_millis(millis);
    it.total_millis() == millis
        && (it.secs(), it.millis(), it.micros()) == parts
        && moment_has_text(it, text)
}

#[test]
fn moments_have_texts_and_parts(rt: HostRuntime) {
    for (name, millis, text, parts) in &MOMENTS {
        assert_holds(&rt, is_moment(*millis, text, *parts), (name, 0));
    }
    let least = moment_has_text(Instant::from_micros(i64::MIN), "-9223372036854.-775s");
    assert_holds(&rt, least, ("the_text_of_the_first_moment", 0));
    let greatest = length_has_text(Duration::MAX, "18446744073709.551s");
    assert_holds(&rt, greatest, ("the_text_of_the_longest_time", 0));
}

/// Returns whether 4,934 milliseconds have their text and parts.
fn is_length() -> bool {
    let it = Duration::from_millis(4_934);
    (it.secs(), it.millis(), it.micros()) == (4, 934, 934_000) && length_has_text(it, "4.934s")
}

/// Returns whether a length is so many microseconds.
fn is_micros(length: Duration, micros: u64) -> bool {
    length == Duration::from_micros(micros)
}

#[test]
fn lengths_are_multiplied_and_shifted(rt: HostRuntime) {
    assert_holds(&rt, is_length(), ("test_duration_getters", 0));
    let quotient = is_micros(Duration::from_millis(53) / 4, 13_250);
    assert_holds(&rt, quotient, ("test_duration_div", 0));
    let product = is_micros(Duration::from_millis(13) * 22, 286_000);
    assert_holds(&rt, product, ("test_duration_ops", 0));
    let left = is_micros(Duration::MAX << 1, 18446744073709551614);
    assert_holds(&rt, left, ("a_shift_to_the_left", 0));
    assert_holds(
        &rt,
        is_micros(Duration::MAX >> 63, 1),
        ("a_shift_to_the_right", 0),
    );
    let product = Duration::MAX.can_mul(1) && !Duration::MAX.can_mul(2);
    assert_holds(&rt, product, ("the_longest_time_twice", 0));
    let below = Duration::from_millis(0).can_sub(Duration::from_millis(1));
    assert_holds(&rt, !below, ("test_sub_from_zero_overflow", 0));
    let fit = Duration::fits_secs(18446744073709) && !Duration::fits_secs(18446744073710);
    assert_holds(&rt, fit, ("the_most_seconds", 0));
}

/// Returns the length of a duration of the standard library, if it fits.
fn of_core(secs: u64, nanos: u32) -> Option<Duration> {
    let rest = std::time::Duration::from_nanos(nanos as u64);
    let core = std::time::Duration::from_secs(secs).checked_add(rest)?;
    if Duration::fits_core(core) {
        Some(Duration::from_core(core))
    } else {
        None
    }
}

#[test]
fn lengths_are_converted(rt: HostRuntime) {
    let longest = of_core(18446744073709, 551615999) == Some(Duration::MAX);
    assert_holds(&rt, longest, ("the_longest_time", 0));
    let longer = of_core(18446744073709, 551616000).is_none();
    assert_holds(&rt, longer, ("longer_than_the_longest_time", 0));
    let cut = of_core(1, 999) == Some(Duration::from_micros(1_000_000));
    assert_holds(&rt, cut, ("nanoseconds_are_dropped", 0));
    let millis = of_core(4, 934_000_000) == Some(Duration::from_millis(4_934));
    assert_holds(&rt, millis, ("test_duration_conversions", 0));
    let back: std::time::Duration = Duration::from_millis(4_934).into();
    assert_holds(
        &rt,
        back.as_micros() == 4_934_000,
        ("back_to_the_standard_library", 0),
    );
}

#[test]
fn moments_at_the_ends(rt: HostRuntime) {
    let first = Instant::from_micros(i64::MIN);
    let last = Instant::from_micros(i64::MAX);
    let sum = first.can_add(Duration::MAX) && first + Duration::MAX == last;
    assert_holds(&rt, sum, ("from_the_first_moment_to_the_last", 0));
    let difference = last.can_sub(Duration::MAX) && last - Duration::MAX == first;
    assert_holds(&rt, difference, ("from_the_last_moment_to_the_first", 0));
    let before = first.can_sub(Duration::from_micros(1));
    assert_holds(&rt, !before, ("before_the_first_moment", 0));
    assert_holds(
        &rt,
        !Instant::ZERO.can_add(Duration::MAX),
        ("after_the_last_moment", 0),
    );
    let distance = first - last == Duration::MAX && last - first == Duration::MAX;
    assert_holds(&rt, distance, ("the_longest_distance", 0));
    let earlier = Instant::from_millis(7) - Duration::from_millis(5) == Instant::from_millis(2);
    assert_holds(&rt, earlier, ("test_instant_ops", 0));
}
