// The reader of cases on examples: a good text read whole, and every fault with its line.
#![tactic(auto)]

#[cfg(test)]
mod tests {
    use std::alloc::Global;
    use std::test::Fail;
    use text::{Call, Cases, Judge, Keyword, Problem, TableLengths, TextFault, read_numbers};

    const TWO_CASES: &[u8] =
        b"# a comment\n\ncase ring\nset 1 0 0 7\nretain\n# inside\ntables 4 12 8\ntree 1  0 4294967295\ncalls begin pass reset repeat\nend\n\ncase last\nset 0 1 1 0\nretain 4 5\ntables 0 0 0\ntree\ncalls\nend";

    #[test]
    fn two_cases_are_read_whole(rt: HostRuntime) -> Result<(), Fail> {
        let heap = rt.alloc();
        let mut cases = Cases::new(TWO_CASES);
        let first = cases.next_case(heap)?.ok_or("no case")?;
        assert!(rt; first.name.as_str() == "ring");
        assert!(rt; first.settings.top_level && !first.settings.preserve_imports);
        assert_eq!(rt; first.settings.judge, Judge::Plain { unresolved: 7 });
        assert!(rt; first.retain.is_empty());
        assert_eq!(rt;
            first.tables,
            TableLengths {
                declared: 4,
                names: 12,
                edges: 8,
            }
        );
        assert!(rt; first.tree.as_slice() == [1, 0, 4294967295].as_slice());
        assert!(rt;
            first.calls.as_slice()
                == [Call::Begin, Call::Pass, Call::Reset, Call::Repeat].as_slice()
        );
        let second = cases.next_case(heap)?.ok_or("no second case")?;
        assert!(rt; second.name.as_str() == "last");
        assert!(rt; !second.settings.top_level && second.settings.preserve_imports);
        assert_eq!(rt; second.settings.judge, Judge::Cautious);
        assert!(rt; second.retain.as_slice() == [4, 5].as_slice());
        assert!(rt; second.tree.is_empty() && second.calls.is_empty());
        assert!(rt; cases.next_case(heap)?.is_none());
        Ok(())
    }

    // Texts with the line and the problem of their first fault.
    static FAULTS: [(&str, usize, Problem); 26] = [
        ("hello", 1, Problem::UnknownLine),
        ("\n\n# c\n set 1", 4, Problem::UnknownLine),
        ("case a\n\nset 1 0 0 1", 2, Problem::UnknownLine),
        ("set 1 0 0 1", 1, Problem::Expected(Keyword::Case)),
        ("case a\ncase a", 2, Problem::Expected(Keyword::Set)),
        (
            "case a\nset 1 0 0 1\ntables 1 1 1",
            3,
            Problem::Expected(Keyword::Retain),
        ),
        (
            "case a\nset 1 0 0 1\nretain\nretain",
            4,
            Problem::Expected(Keyword::Tables),
        ),
        (
            "case a\nset 1 0 0 1\nretain\ntables 1 1 1\nend",
            5,
            Problem::Expected(Keyword::Tree),
        ),
        (
            "case a\nset 1 0 0 1\nretain\ntables 1 1 1\ntree\nend",
            6,
            Problem::Expected(Keyword::Calls),
        ),
        (
            "case a\nset 1 0 0 1\nretain\ntables 1 1 1\ntree\ncalls\ncalls",
            7,
            Problem::Expected(Keyword::End),
        ),
        ("case", 1, Problem::WrongCount),
        ("case a b", 1, Problem::WrongCount),
        ("case \u{e9}", 1, Problem::NotText),
        ("case a\nset 1 0 0", 2, Problem::WrongCount),
        ("case a\nset 1 0 0 1 1", 2, Problem::WrongCount),
        ("case a\nset 2 0 0 1", 2, Problem::NotASetting),
        ("case a\nset 1 0 2 1", 2, Problem::NotASetting),
        ("case a\nset 1 0 0 x", 2, Problem::NotANumber),
        ("case a\nset 1 0 0 1\nretain +1", 3, Problem::NotANumber),
        (
            "case a\nset 1 0 0 1\nretain 4294967296",
            3,
            Problem::TooLarge,
        ),
        (
            "case a\nset 1 0 0 1\nretain\ntables 1 1",
            4,
            Problem::WrongCount,
        ),
        (
            "case a\nset 1 0 0 1\nretain\ntables 1 1 1\ntree 1\t2",
            5,
            Problem::NotANumber,
        ),
        (
            "case a\nset 1 0 0 1\nretain\ntables 1 1 1\ntree\ncalls walk",
            6,
            Problem::UnknownCall,
        ),
        (
            "case a\nset 1 0 0 1\nretain\ntables 1 1 1\ntree\ncalls\nend now",
            7,
            Problem::WrongCount,
        ),
        (
            "case a\nset 1 0 0 1\nretain\ntables 1 1 1\ntree\ncalls",
            6,
            Problem::EndMissing,
        ),
        ("case a\n# c\n", 2, Problem::EndMissing),
    ];

    // The line and problem of the first case of the text.
    fn fault_of(heap: Global, text: &str) -> Option<TextFault> {
        Cases::new(text.as_bytes()).next_case(heap).err()
    }

    #[test]
    fn faults_have_their_lines(rt: HostRuntime) {
        for (text, line, problem) in &FAULTS {
            assert_eq!(rt;
                fault_of(rt.alloc(), text),
                Some(TextFault {
                    line: *line,
                    problem: *problem,
                })
            );
        }
    }

    #[test]
    fn numbers_are_below_two_to_the_32(rt: HostRuntime) -> Result<(), Fail> {
        let numbers = read_numbers(rt.alloc(), b" 0  9 4294967295 007 ")?;
        assert!(rt; numbers.as_slice() == [0, 9, 4294967295, 7].as_slice());
        Ok(())
    }

    #[test]
    fn a_fault_is_a_sentence(rt: HostRuntime) -> Result<(), Fail> {
        let fault = TextFault {
            line: 3,
            problem: Problem::Expected(Keyword::Tree),
        };
        let said = format!(in rt.alloc(); "{fault}")?;
        assert!(rt; said.as_str() == "line 3: a line beginning with tree is due here");
        Ok(())
    }
}
