// The cases of a file, as values or read where they stand: what each gives to a call and expects of it; and comparing an output with what is expected.
#![tactic(auto)]

mod call;
mod case;
mod compare;
mod reader;
mod returned;
mod stored;
mod words;

pub use call::{CALLS, Call, UnknownCall};
pub use case::{Case, Cases, Damaged};
pub use compare::{Element, is_as_expected};
pub use reader::{MOST, WordArray};
pub use returned::Returned;
pub use stored::{ReadCase, StoredCase, StoredCases};
pub use words::Words;

#[cfg(test)]
mod tests {
    use super::{Call, Cases, Damaged, MOST, Returned, StoredCases};
    use std::test::Fail;

    // Row 3 is listed in the run from 2 to 5.
    const CASE: [u8; 19] = [6, 0, 0, 0, 0, 2, 0, 0, 0, 0, 5, 0, 0, 0, 3, 1, 0, 2, 5];

    #[test]
    fn each_call_has_its_number(rt: HostRuntime) -> Result<(), Fail> {
        for number in 0..38 {
            assert_eq!(rt; Call::try_from(number)? as u8, number);
        }
        assert_eq!(rt; Call::try_from(38)?, Call::Another);
        assert!(rt; Call::try_from(39).is_err());
        Ok(())
    }

    #[test]
    fn a_case_is_read(rt: HostRuntime) {
        let mut cases = Cases::new(&CASE);
        let Some(Ok(case)) = cases.next() else {
            panic!(rt; "no case");
        };
        assert_eq!(rt; case.call, Call::Contains);
        assert_eq!(rt; case.number, 3);
        assert_eq!(rt; case.returned.first, 1);
        assert_eq!(rt; case.first.as_slice(), [2, 5].as_slice());
        assert!(rt; cases.next().is_none());
    }

    #[test]
    fn a_case_that_is_cut_short_is_the_last(rt: HostRuntime) {
        for end in 1..19 {
            let mut cases = Cases::new(&CASE[..end]);
            let Some(Err(damaged)) = cases.next() else {
                panic!(rt; "a whole case at {end}");
            };
            assert_eq!(rt;
                damaged,
                Damaged {
                    call: Some(Call::Contains)
                }
            );
            assert!(rt; cases.next().is_none());
        }
    }

    // A case whose number no call has is the last too, that of `Another` as any other.
    #[test]
    fn a_case_of_no_call_is_the_last(rt: HostRuntime) {
        for number in 38..=255 {
            let mut file = [0u8; 33];
            file[0] = number;
            file[14..].copy_from_slice(&CASE);
            let mut cases = Cases::new(&file);
            let Some(Err(damaged)) = cases.next() else {
                panic!(rt; "a case of call {number}");
            };
            assert_eq!(rt; damaged, Damaged { call: None });
            assert!(rt; cases.next().is_none());
        }
    }

    // A list has as many words as a byte counts: two of 125, and the three numbers before them.
    #[test]
    fn a_case_of_long_lists_is_read(rt: HostRuntime) {
        let mut file = [7u8; 267];
        file[..14].copy_from_slice(&[3, 0, 0, 0, 0, 125, 125, 0, 0, 0, 253, 0, 0, 0]);
        let mut cases = Cases::new(&file);
        let Some(Ok(case)) = cases.next() else {
            panic!(rt; "no case");
        };
        assert_eq!(rt; case.call, Call::Union);
        assert_eq!(rt; case.first.as_slice(), [7; 125].as_slice());
        assert_eq!(rt; case.second.as_slice(), [7; 125].as_slice());
        assert!(rt; cases.next().is_none());
    }

    #[test]
    fn a_stored_case_is_read(rt: HostRuntime) {
        let mut cases = StoredCases::new(&CASE);
        let Some(stored) = cases.next() else {
            panic!(rt; "no case");
        };
        let (mut given, mut expected) = ([0u64; MOST], [0u64; MOST]);
        let case = stored.read(&mut given, &mut expected);
        assert_eq!(rt; stored.call(), Some(Call::Contains));
        assert_eq!(rt; case.number(), 3);
        assert_eq!(rt; case.returned().first, 1);
        assert_eq!(rt; case.first(), [2, 5].as_slice());
        assert!(rt; cases.next().is_none());
    }

    // Bytes past the end count as zero; where the head is cut, all of it does.
    #[test]
    fn a_case_that_is_cut_short_is_read(rt: HostRuntime) {
        for end in 1..19 {
            let mut cases = StoredCases::new(&CASE[..end]);
            let Some(stored) = cases.next() else {
                panic!(rt; "no case at {end}");
            };
            let (mut given, mut expected) = ([0u64; MOST], [0u64; MOST]);
            let case = stored.read(&mut given, &mut expected);
            let whole = 14 <= end;
            let call = if whole { Call::Contains } else { Call::U32At };
            assert_eq!(rt; stored.call(), Some(call));
            let yes = u64::from(15 < end);
            assert_eq!(rt; case.returned(), Returned::from(yes));
            assert_eq!(rt; case.first().len(), if whole { 2 } else { 0 });
            assert!(rt; cases.next().is_none());
        }
    }

    // A case whose number no call has does not end its file.
    #[test]
    fn a_case_of_no_call_is_followed(rt: HostRuntime) {
        let mut file = [0u8; 33];
        file[0] = 39;
        file[14..].copy_from_slice(&CASE);
        let mut cases = StoredCases::new(&file);
        let Some(case) = cases.next() else {
            panic!(rt; "no case");
        };
        assert_eq!(rt; case.call(), None);
        let Some(case) = cases.next() else {
            panic!(rt; "no second case");
        };
        assert_eq!(rt; case.call(), Some(Call::Contains));
        assert!(rt; cases.next().is_none());
    }
}
