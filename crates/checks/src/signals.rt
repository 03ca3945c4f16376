// The times of signals in memory.
use bringup::signal::write_signal;
use code::refusal::answer_number;

// The number that writing is refused by, or 0.
fn refusal(number: u8, memory: &mut [u32], place: usize) -> u8 {
    answer_number(&write_signal(number, memory, place))
}

#[test]
fn signal_is_written_from_its_place(rt: HostRuntime) {
    let mut memory = [7u32; 15];
    assert_eq!(rt; refusal(1, &mut memory, 1), 0);
    assert_eq!(rt;
        memory,
        [
            7, 960, 320, 960, 320, 960, 320, 960, 320, 960, 320, 960, 320, 1_575, 7
        ]
    );
    assert_eq!(rt; refusal(2, &mut memory, 2), 0);
    assert_eq!(rt;
        memory,
        [
            7, 960, 2_880, 320, 2_880, 320, 2_880, 320, 2_880, 320, 2_880, 320, 2_880, 320, 4_725
        ]
    );
}

#[test]
fn refused_at_the_edges(rt: HostRuntime) {
    let mut memory = [7u32; 15];
    assert_eq!(rt; refusal(3, &mut memory, 9), 18);
    assert_eq!(rt; refusal(0, &mut memory, 3), 19);
    assert_eq!(rt; refusal(0, &mut memory, 15), 19);
    assert_eq!(rt; refusal(0, &mut memory, 16), 19);
    assert_eq!(rt; memory, [7; 15]);
    assert_eq!(rt; refusal(0, &mut memory, 2), 0);
    assert_eq!(rt;
        memory,
        [
            7, 7, 320, 320, 320, 320, 320, 320, 320, 320, 320, 320, 320, 320, 525
        ]
    );
}
