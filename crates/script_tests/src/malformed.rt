// Lines that are no command, among good ones.
use crate::scripts::check_run;
use std::test::Fail;

// Each good line writes or reads 91h, so a malformed one that was obeyed would show.
#[test]
fn among_good_ones(rt: HostRuntime) -> Result<(), Fail> {
    check_run(
        &rt,
        "W 91 0C\nw 91 01\nW 91 0d\nW  91 02\nW 91  03\nW 91 04 \nW 91 5\nW 91 006\nW91 07\nR 91\n\
         R 91\r\nR 9\nR\n\n \nR 91\n R 91\nZ 91\n",
        "ok\n??\n??\n??\n??\n??\n??\n??\n??\nok 0C\n\
         ??\n??\n??\n??\n??\nok 0C\n??\n??\n",
    )
}

// Each letter with a field too long or too short, or one that it has not.
#[test]
fn each_letter(rt: HostRuntime) -> Result<(), Fail> {
    check_run(
        &rt,
        "G 001\nG 00001\nG 0001\nX \nX 0\nX\nS0\nS\nM 0001\nM 0000001\nM 00000G\nM 000001\n\
         B\nB \nB 0\nB 00 00\nB 000\nB 00\n",
        "??\n??\nno 10\n??\n??\nno 11\n??\nok 54\n??\n??\n??\nok 00\n\
         ??\n??\n??\n??\n??\nno 09\n",
    )
}

// 32 bytes are a burst, 33 are not; what has no line feed is dropped.
#[test]
fn longest_burst_and_a_rest(rt: HostRuntime) -> Result<(), Fail> {
    check_run(
        &rt,
        "W 03 03
B 0000000000000000000000000000000000000000000000000000000000000000
B 000000000000000000000000000000000000000000000000000000000000000000
X
S",
        "ok\nok 0020 0000\n??\nok 0000\n",
    )
}
