//! Options, and the two costs.
use cost_model::{ParamFault, Params, emission, transition};

#[test]
fn the_first_option_out_of_range_is_the_fault(rt: HostRuntime) {
    let two_faults = Params {
        k: 0,
        beta: 0,
        ..Params::DEFAULT
    };
    let far_back = Params {
        back: 100_001,
        ..Params::DEFAULT
    };
    let checked = [
        two_faults.check(),
        far_back.check(),
        Params::DEFAULT.check(),
    ];
    let wanted = [
        Err(ParamFault::KRange),
        Err(ParamFault::BackRange),
        Ok(Params::DEFAULT),
    ];
    assert!(rt; checked == wanted);
}

#[test]
fn costs_are_rounded_down_up_to_the_greatest(rt: HostRuntime) {
    let steep = Params {
        radius: 100_000,
        sigma: 1,
        beta: 1,
        ..Params::DEFAULT
    };
    let costs = [
        emission(&Params::DEFAULT, 90_000),
        emission(&Params::DEFAULT, 1_999),
        transition(&Params::DEFAULT, 8_000, 8_022),
        emission(&steep, 10_000_000_000),
        transition(&steep, 20, 2_828_427_124),
    ];
    let wanted = [45, 0, 22, 5_000_000_000_000, 2_828_427_104_000];
    assert_eq!(rt; costs, wanted);
}
