use crate::shown::same;
use swp_line::*;

#[test]
fn periods_of_the_table(rt: HostRuntime) {
    let one_on_s1 = Period::Bits {
        s1: true,
        s2: false,
    };
    let one_on_s2 = Period::Bits {
        s1: false,
        s2: true,
    };
    let periods = [
        period_of(0x54),
        period_of(0xC0),
        period_of(0x00),
        period_of(0x7F),
    ];
    let deactivated = Period::Deactivated;
    same(
        &rt,
        &periods,
        &[Some(one_on_s1), Some(one_on_s2), Some(deactivated), None],
    );
    same(&rt, &byte_of(&Period::ResumeAsked), &0xFF);
}
