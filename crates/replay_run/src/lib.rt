// One case, run through the library and compared with what is expected.
#![tactic(auto)]

mod arguments;
mod calls;
mod outputs;
mod stored;
mod stored_outputs;

pub use calls::agrees;
pub use stored::stored_agrees;

#[cfg(test)]
mod tests {
    use super::{agrees, stored_agrees};
    use replay_cases::{Call, Case, Cases, Returned, StoredCases, Words};

    // Whether the case at the front of a file agrees, as values and where it stands; nothing where it is damaged.
    fn both_agree(file: &[u8]) -> Option<(bool, bool)> {
        let Some(Ok(case)) = Cases::new(file).next() else {
            return None;
        };
        let stored = StoredCases::new(file).next()?;
        Some((agrees(&case), stored_agrees(case.call, &stored)))
    }

    // Nothing is given, and each refusal expected with each of none and 0: of each call some such case agrees, and the same ones in both forms.
    #[test]
    fn each_call_is_run(rt: HostRuntime) {
        for call in 0..38 {
            let mut agreed = false;
            for expected in 0..48 {
                let first = if expected % 2 == 0 { 0 } else { 255 };
                let second = if expected / 2 % 2 == 0 { 0 } else { 255 };
                let refusal = expected / 4;
                let file = [
                    call, refusal, 0, 0, 0, 0, 0, 0, 0, 0, 3, 0, 0, 0, 0, first, second,
                ];
                let Some((agrees, stored)) = both_agree(&file) else {
                    panic!(rt; "no case of call {call}");
                };
                assert_eq!(rt; agrees, stored);
                agreed = agreed || agrees;
            }
            assert!(rt; agreed, "call {call}");
        }
    }

    // The union of 0-3 and 3-5 in an output of four words; 0-5 is written, and the others keep their marks.
    #[test]
    fn what_is_written_is_compared(rt: HostRuntime) {
        let mut file = [
            3, 0, 4, 0, 0, 2, 2, 0, 2, 0, 7, 0, 2, 0, 0, 2, 0, 0, 3, 3, 5, 0, 5,
        ];
        assert_eq!(rt; both_agree(&file), Some((true, true)));
        // An element, and the returned length.
        for place in [22, 15] {
            file[place] ^= 1;
            assert_eq!(rt; both_agree(&file), Some((false, false)));
            file[place] ^= 1;
        }
        assert_eq!(rt; both_agree(&file), Some((true, true)));
        // The second element is expected to keep its mark.
        file[8] = 1;
        assert_eq!(rt; both_agree(&file), Some((false, false)));
    }

    // A case that no file holds: row 3 is listed in the run from 2 to 5, and its end is not.
    #[test]
    fn a_case_of_the_caller_is_run(rt: HostRuntime) {
        let mut first = Words::new();
        first.push(2);
        first.push(5);
        let mut case = Case {
            call: Call::Contains,
            bytes: &[],
            number: 3,
            first,
            second: Words::new(),
            third: Words::new(),
            returned: Returned::from(1),
            room: 0,
            spare: 0,
            written: Words::new(),
            more_written: Words::new(),
        };
        assert!(rt; agrees(&case));
        case.number = 5;
        assert!(rt; !agrees(&case));
    }

    // 126 runs, whose words are the bytes from 0 to 251: as values they are counted, as records too. In a file 128 words count.
    #[test]
    fn a_long_list_is_run(rt: HostRuntime) {
        let mut file = [0u8; 269];
        file[..17].copy_from_slice(&[7, 0, 0, 0, 0, 252, 0, 0, 0, 0, 255, 0, 0, 0, 0, 126, 0]);
        for word in 0..252 {
            file[17 + usize::from(word)] = word;
        }
        assert_eq!(rt; both_agree(&file), Some((true, false)));
        file[0] = 32;
        assert_eq!(rt; both_agree(&file), Some((true, false)));
    }

    // The same runs, and in an output of 255 words their union with none.
    #[test]
    fn a_long_output_is_compared(rt: HostRuntime) {
        let mut file = [0u8; 521];
        file[..17].copy_from_slice(&[3, 0, 255, 0, 0, 252, 0, 0, 252, 0, 255, 0, 252, 0, 0, 0, 0]);
        for word in 0..252 {
            file[17 + usize::from(word)] = word;
            file[269 + usize::from(word)] = word;
        }
        let Some(Ok(mut case)) = Cases::new(&file).next() else {
            panic!(rt; "no case");
        };
        case.returned.first = 252;
        assert!(rt; agrees(&case));
        case.room = 251;
        assert!(rt; !agrees(&case));
    }

    // More elements are expected than the output has places: as values that disagrees, in a file those in the output are compared.
    #[test]
    fn elements_past_the_output_disagree(rt: HostRuntime) {
        let file = [
            3, 0, 2, 0, 0, 2, 0, 0, 4, 0, 5, 0, 4, 0, 0, 2, 0, 0, 3, 0, 3, 9, 9,
        ];
        assert_eq!(rt; both_agree(&file), Some((false, true)));
    }

    // As values too a case of `Another` is run as one of present_position.
    #[test]
    fn another_call_is_run(rt: HostRuntime) {
        let file = [28, 0, 0, 0, 0, 0, 0, 0, 0, 0, 3, 0, 0, 0, 0, 255, 0];
        let Some(Ok(mut case)) = Cases::new(&file).next() else {
            panic!(rt; "no case");
        };
        assert!(rt; agrees(&case));
        case.call = Call::Another;
        assert!(rt; agrees(&case));
    }
}
