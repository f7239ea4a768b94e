// The names of the nodes of the five walks.
ghost use Rattle.std.specs.Prelude.{◌≡◌, codes};
ghost use Rattle.dt_sv39x4.specs.Names.{stage_names, result_names, guest_names};

use crate::guest::GuestNames;
use crate::results::ResultNames;
use dt_lex::Name;
use dt_stage::{LastNames, StageNames, UpperNames};

/// The names of the levels of the VS-stage.
pub fn v_stage() -> StageNames
    ensures { result ≡ stage_names (codes "v") }
{
    StageNames {
        level2: UpperNames {
            read: Name::spelled(b"v2"),
            invalid: Name::spelled(b"v_invalid2"),
            pointer: Name::spelled(b"v_pointer2"),
            bad_pointer: Name::spelled(b"v_bad_pointer2"),
            bad_leaf: Name::spelled(b"v_bad_leaf2"),
        },
        level1: UpperNames {
            read: Name::spelled(b"v1"),
            invalid: Name::spelled(b"v_invalid1"),
            pointer: Name::spelled(b"v_pointer1"),
            bad_pointer: Name::spelled(b"v_bad_pointer1"),
            bad_leaf: Name::spelled(b"v_bad_leaf1"),
        },
        level0: LastNames {
            read: Name::spelled(b"v0"),
            invalid: Name::spelled(b"v_invalid0"),
            pointer: Name::spelled(b"v_pointer0"),
            bad_leaf: Name::spelled(b"v_bad_leaf0"),
        },
    }
}

/// The names of its results.
pub fn v_results() -> ResultNames
    ensures { result ≡ result_names (codes "v") }
{
    ResultNames {
        led30: Name::spelled(b"v_led30"),
        led21: Name::spelled(b"v_led21"),
        napot: Name::spelled(b"v_napot"),
        led16: Name::spelled(b"v_led16"),
        led12: Name::spelled(b"v_led12"),
    }
}

// The names of the levels of the G-stage of the address of the VS-stage's entry of level 2.
fn a_stage() -> StageNames
    ensures { result ≡ stage_names (codes "a") }
{
    StageNames {
        level2: UpperNames {
            read: Name::spelled(b"a2"),
            invalid: Name::spelled(b"a_invalid2"),
            pointer: Name::spelled(b"a_pointer2"),
            bad_pointer: Name::spelled(b"a_bad_pointer2"),
            bad_leaf: Name::spelled(b"a_bad_leaf2"),
        },
        level1: UpperNames {
            read: Name::spelled(b"a1"),
            invalid: Name::spelled(b"a_invalid1"),
            pointer: Name::spelled(b"a_pointer1"),
            bad_pointer: Name::spelled(b"a_bad_pointer1"),
            bad_leaf: Name::spelled(b"a_bad_leaf1"),
        },
        level0: LastNames {
            read: Name::spelled(b"a0"),
            invalid: Name::spelled(b"a_invalid0"),
            pointer: Name::spelled(b"a_pointer0"),
            bad_leaf: Name::spelled(b"a_bad_leaf0"),
        },
    }
}

// The names of its results.
fn a_results() -> ResultNames
    ensures { result ≡ result_names (codes "a") }
{
    ResultNames {
        led30: Name::spelled(b"a_led30"),
        led21: Name::spelled(b"a_led21"),
        napot: Name::spelled(b"a_napot"),
        led16: Name::spelled(b"a_led16"),
        led12: Name::spelled(b"a_led12"),
    }
}

/// The names of the G-stage of the address of the VS-stage's entry of level 2.
pub fn a_guest() -> GuestNames
    ensures { result ≡ guest_names (codes "a") }
{
    GuestNames {
        mode: Name::spelled(b"a_mode"),
        high: Name::spelled(b"a_high"),
        bare: Name::spelled(b"a_bare"),
        range: Name::spelled(b"a_range"),
        stage: a_stage(),
        results: a_results(),
    }
}

// The names of the levels of the G-stage of the address of the VS-stage's entry of level 1.
fn b_stage() -> StageNames
    ensures { result ≡ stage_names (codes "b") }
{
    StageNames {
        level2: UpperNames {
            read: Name::spelled(b"b2"),
            invalid: Name::spelled(b"b_invalid2"),
            pointer: Name::spelled(b"b_pointer2"),
            bad_pointer: Name::spelled(b"b_bad_pointer2"),
            bad_leaf: Name::spelled(b"b_bad_leaf2"),
        },
        level1: UpperNames {
            read: Name::spelled(b"b1"),
            invalid: Name::spelled(b"b_invalid1"),
            pointer: Name::spelled(b"b_pointer1"),
            bad_pointer: Name::spelled(b"b_bad_pointer1"),
            bad_leaf: Name::spelled(b"b_bad_leaf1"),
        },
        level0: LastNames {
            read: Name::spelled(b"b0"),
            invalid: Name::spelled(b"b_invalid0"),
            pointer: Name::spelled(b"b_pointer0"),
            bad_leaf: Name::spelled(b"b_bad_leaf0"),
        },
    }
}

// The names of its results.
fn b_results() -> ResultNames
    ensures { result ≡ result_names (codes "b") }
{
    ResultNames {
        led30: Name::spelled(b"b_led30"),
        led21: Name::spelled(b"b_led21"),
        napot: Name::spelled(b"b_napot"),
        led16: Name::spelled(b"b_led16"),
        led12: Name::spelled(b"b_led12"),
    }
}

/// The names of the G-stage of the address of the VS-stage's entry of level 1.
pub fn b_guest() -> GuestNames
    ensures { result ≡ guest_names (codes "b") }
{
    GuestNames {
        mode: Name::spelled(b"b_mode"),
        high: Name::spelled(b"b_high"),
        bare: Name::spelled(b"b_bare"),
        range: Name::spelled(b"b_range"),
        stage: b_stage(),
        results: b_results(),
    }
}

// The names of the levels of the G-stage of the address of the VS-stage's entry of level 0.
fn c_stage() -> StageNames
    ensures { result ≡ stage_names (codes "c") }
{
    StageNames {
        level2: UpperNames {
            read: Name::spelled(b"c2"),
            invalid: Name::spelled(b"c_invalid2"),
            pointer: Name::spelled(b"c_pointer2"),
            bad_pointer: Name::spelled(b"c_bad_pointer2"),
            bad_leaf: Name::spelled(b"c_bad_leaf2"),
        },
        level1: UpperNames {
            read: Name::spelled(b"c1"),
            invalid: Name::spelled(b"c_invalid1"),
            pointer: Name::spelled(b"c_pointer1"),
            bad_pointer: Name::spelled(b"c_bad_pointer1"),
            bad_leaf: Name::spelled(b"c_bad_leaf1"),
        },
        level0: LastNames {
            read: Name::spelled(b"c0"),
            invalid: Name::spelled(b"c_invalid0"),
            pointer: Name::spelled(b"c_pointer0"),
            bad_leaf: Name::spelled(b"c_bad_leaf0"),
        },
    }
}

// The names of its results.
fn c_results() -> ResultNames
    ensures { result ≡ result_names (codes "c") }
{
    ResultNames {
        led30: Name::spelled(b"c_led30"),
        led21: Name::spelled(b"c_led21"),
        napot: Name::spelled(b"c_napot"),
        led16: Name::spelled(b"c_led16"),
        led12: Name::spelled(b"c_led12"),
    }
}

/// The names of the G-stage of the address of the VS-stage's entry of level 0.
pub fn c_guest() -> GuestNames
    ensures { result ≡ guest_names (codes "c") }
{
    GuestNames {
        mode: Name::spelled(b"c_mode"),
        high: Name::spelled(b"c_high"),
        bare: Name::spelled(b"c_bare"),
        range: Name::spelled(b"c_range"),
        stage: c_stage(),
        results: c_results(),
    }
}

// The names of the levels of the G-stage of the final address.
fn g_stage() -> StageNames
    ensures { result ≡ stage_names (codes "g") }
{
    StageNames {
        level2: UpperNames {
            read: Name::spelled(b"g2"),
            invalid: Name::spelled(b"g_invalid2"),
            pointer: Name::spelled(b"g_pointer2"),
            bad_pointer: Name::spelled(b"g_bad_pointer2"),
            bad_leaf: Name::spelled(b"g_bad_leaf2"),
        },
        level1: UpperNames {
            read: Name::spelled(b"g1"),
            invalid: Name::spelled(b"g_invalid1"),
            pointer: Name::spelled(b"g_pointer1"),
            bad_pointer: Name::spelled(b"g_bad_pointer1"),
            bad_leaf: Name::spelled(b"g_bad_leaf1"),
        },
        level0: LastNames {
            read: Name::spelled(b"g0"),
            invalid: Name::spelled(b"g_invalid0"),
            pointer: Name::spelled(b"g_pointer0"),
            bad_leaf: Name::spelled(b"g_bad_leaf0"),
        },
    }
}

// The names of its results.
fn g_results() -> ResultNames
    ensures { result ≡ result_names (codes "g") }
{
    ResultNames {
        led30: Name::spelled(b"g_led30"),
        led21: Name::spelled(b"g_led21"),
        napot: Name::spelled(b"g_napot"),
        led16: Name::spelled(b"g_led16"),
        led12: Name::spelled(b"g_led12"),
    }
}

/// The names of the G-stage of the final address.
pub fn g_guest() -> GuestNames
    ensures { result ≡ guest_names (codes "g") }
{
    GuestNames {
        mode: Name::spelled(b"g_mode"),
        high: Name::spelled(b"g_high"),
        bare: Name::spelled(b"g_bare"),
        range: Name::spelled(b"g_range"),
        stage: g_stage(),
        results: g_results(),
    }
}
