// Each limit on a job's numbers: met, reached, passed by one, and far past.
use terms::{Draft, Refusal, Terms};

const SOUND: Draft = Draft {
    number: 10,
    period: 100,
    deadline: 50,
    run: 20,
    standby: 30,
    lateness: 5,
};

fn lawful(draft: Draft) -> bool {
    Terms::new(draft).err() != Some(Refusal::Limits)
}

#[test]
fn numbers_and_runs(rt: HostRuntime) {
    assert_eq!(rt; lawful(SOUND), true);
    assert_eq!(rt; lawful(Draft { number: 0, ..SOUND }), false);
    assert_eq!(rt; lawful(Draft { number: 1, ..SOUND }), true);
    assert_eq!(rt;
        lawful(Draft {
            number: 65535,
            ..SOUND
        }),
        true
    );
    assert_eq!(rt;
        lawful(Draft {
            number: 65536,
            ..SOUND
        }),
        false
    );
    assert_eq!(rt;
        lawful(Draft {
            number: 65546,
            ..SOUND
        }),
        false
    );
    assert_eq!(rt;
        lawful(Draft {
            number: 4294967295,
            ..SOUND
        }),
        false
    );
    assert_eq!(rt; lawful(Draft { run: 0, ..SOUND }), false);
    assert_eq!(rt; lawful(Draft { run: 45, ..SOUND }), true);
    assert_eq!(rt; lawful(Draft { run: 46, ..SOUND }), false);
    assert_eq!(rt;
        lawful(Draft {
            run: 4294967295,
            ..SOUND
        }),
        false
    );
}

#[test]
fn standbys_and_lateness(rt: HostRuntime) {
    assert_eq!(rt;
        lawful(Draft {
            standby: 0,
            ..SOUND
        }),
        false
    );
    assert_eq!(rt;
        lawful(Draft {
            standby: 1,
            ..SOUND
        }),
        true
    );
    assert_eq!(rt;
        lawful(Draft {
            standby: 45,
            ..SOUND
        }),
        true
    );
    assert_eq!(rt;
        lawful(Draft {
            standby: 46,
            ..SOUND
        }),
        false
    );
    assert_eq!(rt;
        lawful(Draft {
            standby: 4294967295,
            ..SOUND
        }),
        false
    );
    assert_eq!(rt;
        lawful(Draft {
            lateness: 0,
            ..SOUND
        }),
        true
    );
    assert_eq!(rt;
        lawful(Draft {
            lateness: 20,
            ..SOUND
        }),
        true
    );
    assert_eq!(rt;
        lawful(Draft {
            lateness: 21,
            ..SOUND
        }),
        false
    );
    assert_eq!(rt;
        lawful(Draft {
            lateness: 4294967295,
            run: 1,
            standby: 1,
            ..SOUND
        }),
        false
    );
}

#[test]
fn deadlines_and_periods(rt: HostRuntime) {
    assert_eq!(rt;
        lawful(Draft {
            deadline: 0,
            ..SOUND
        }),
        false
    );
    assert_eq!(rt;
        lawful(Draft {
            deadline: 34,
            ..SOUND
        }),
        false
    );
    assert_eq!(rt;
        lawful(Draft {
            deadline: 35,
            ..SOUND
        }),
        true
    );
    assert_eq!(rt;
        lawful(Draft {
            deadline: 100,
            ..SOUND
        }),
        true
    );
    assert_eq!(rt;
        lawful(Draft {
            deadline: 101,
            ..SOUND
        }),
        false
    );
    assert_eq!(rt;
        lawful(Draft {
            deadline: 4294967295,
            ..SOUND
        }),
        false
    );
    assert_eq!(rt; lawful(Draft { period: 0, ..SOUND }), false);
    assert_eq!(rt;
        lawful(Draft {
            period: 49,
            ..SOUND
        }),
        false
    );
    assert_eq!(rt;
        lawful(Draft {
            period: 50,
            ..SOUND
        }),
        true
    );
    assert_eq!(rt;
        lawful(Draft {
            period: 1000000,
            ..SOUND
        }),
        true
    );
    assert_eq!(rt;
        lawful(Draft {
            period: 1000001,
            ..SOUND
        }),
        false
    );
    assert_eq!(rt;
        lawful(Draft {
            period: 4294967295,
            ..SOUND
        }),
        false
    );
}
