// What bids are worth at the sending end of each path of a case.
#![tactic(auto)]

pub mod bid;
pub mod listing;

#[cfg(test)]
mod tests {
    use crate::bid::bid;
    use crate::listing::convert;
    use std::alloc::AllocGlobal;
    use std::process::Abort;
    use std::test::Fail;

    fn prints(rt: &(impl Abort + AllocGlobal), text: &str, expected: &str) -> Result<(), Fail> {
        let out = convert(rt.alloc(), text.as_bytes(), &[])?;
        assert_eq!(rt; out.as_str(), expected, "{}", text);
        Ok(())
    }

    #[test]
    fn lines_and_words(rt: HostRuntime) -> Result<(), Fail> {
        let table = [
            ("", ""),
            ("node 1 0 0 0", ""),
            ("node 1 0 0 0\n", ""),
            ("\n", "fault text 2 1 0\n"),
            ("node 1 0 0 0\n\n", "fault text 2 2 0\n"),
            ("nodes 1 0 0 0\n", "fault text 2 1 0\n"),
            ("node\t1 0 0 0\n", "fault text 2 1 0\n"),
            ("node 1 0 0 0\r\n", "fault text 4 1 5\n"),
            ("node 1 0 0\n", "fault text 3 1 0\n"),
            ("node x 0 0\n", "fault text 3 1 0\n"),
            ("node 1 0 0 0 0\n", "fault text 3 1 0\n"),
            ("node 1 0 0 0 \n", "fault text 3 1 0\n"),
            ("node 1  0 0\n", "fault text 4 1 3\n"),
            ("node +1 0 0 0\n", "fault text 4 1 2\n"),
            ("node -1 0 0 0\n", "fault text 4 1 2\n"),
            ("node 000000001 0 0 0\n", ""),
            ("node 0000000001 0 0 0\n", "fault text 4 1 2\n"),
            ("leg 0 1 0 0 0\n", "fault sheet 8 1 0\n"),
            ("path 0\nnode 1 0 0 0\n", "fault sheet 11 1 1\n"),
            ("path\n", "fault sheet 11 1 0\n"),
            ("limits\nnode\n", ""),
            ("go\nleg\n", ""),
            ("sell x\n", ""),
        ];
        for (text, expected) in table {
            prints(&rt, text, expected)?;
        }
        Ok(())
    }

    // What a case of two nodes prints that goes on with `text`.
    fn goes_on(rt: &(impl Abort + AllocGlobal), text: &str, expected: &str) -> Result<(), Fail> {
        let mut case = String::from_str(rt.alloc(), "node 1 0 0 0\nnode 2 0 0 0\n")?;
        case.push_str(text)?;
        prints(rt, case.as_str(), expected)
    }

    #[test]
    fn words_in_turn(rt: HostRuntime) -> Result<(), Fail> {
        let table = [
            ("leg 0 1 200000 0 0\n", ""),
            ("leg 0 1 200001 0 0\n", "fault sheet 9 3 0\n"),
            ("leg 0 1 0 0 0\nnode 1 0 0 0\n", "fault text 2 4 0\n"),
            (
                "leg 0 1 0 0 0\npath 0\nleg 0 1 0 0 0\n",
                "fault text 2 5 0\n",
            ),
            ("leg 0 1 0 0 0\npath 0 0\n", "fault sheet 12 4 2\n"),
            (
                "leg 0 1 0 0 0\nleg 1 0 0 0 0\npath 0 1\n",
                "fault sheet 13 5 2\n",
            ),
            (
                "leg 0 1 50000 30000 0\npath 0\n",
                "path 0 0 1 950000 28500000000\n",
            ),
        ];
        for (text, expected) in table {
            goes_on(&rt, text, expected)?;
        }
        Ok(())
    }

    #[test]
    fn bids_on_each_path(rt: HostRuntime) -> Result<(), Fail> {
        let Some(high) = bid(b"500") else {
            return Err(Fail::new("no bid"));
        };
        let Some(low) = bid(b"-100") else {
            return Err(Fail::new("no bid"));
        };
        let text =
            "node 1 0 0 0\nnode 2 0 0 0\nleg 0 1 50000 30000 100\nleg 1 0 0 0 0\npath 0\npath 1\n";
        let out = convert(rt.alloc(), text.as_bytes(), &[high, low])?;
        let expected =
            "path 0 0 1 950000 28500000000\nclaim 0 500 446500000000\nclaim 0 -100 -123500000000\npath 1 1 0 1000000 0\nclaim 1 500 500000000000\nclaim 1 -100 -100000000000\n";
        assert_eq!(rt; out.as_str(), expected);
        Ok(())
    }

    #[test]
    fn long_texts(rt: HostRuntime) -> Result<(), Fail> {
        let mut text = Vec::new(rt.alloc());
        for _ in 0..60_000u32 {
            text.push(b' ')?;
        }
        let within = convert(rt.alloc(), text.as_slice(), &[])?;
        assert_eq!(rt; within.as_str(), "fault text 2 1 0\n");
        text.push(b' ')?;
        let past = convert(rt.alloc(), text.as_slice(), &[])?;
        assert_eq!(rt; past.as_str(), "fault text 1 0 0\n");
        Ok(())
    }

    #[test]
    fn a_path_of_thousands_of_legs(rt: HostRuntime) -> Result<(), Fail> {
        let mut text = String::from_str(rt.alloc(), "path")?;
        for _ in 0..29_998u32 {
            text.push_str(" 0")?;
        }
        prints(&rt, text.as_str(), "fault sheet 11 1 0\n")
    }

    #[test]
    fn bids_in_range(rt: HostRuntime) -> Result<(), Fail> {
        let table = [
            ("-1000", Some(-1000)),
            ("-1001", None),
            ("10000", Some(10000)),
            ("10001", None),
            ("-0", Some(0)),
            ("007", Some(7)),
            ("", None),
            ("-", None),
            ("+5", None),
            ("1234567890", None),
        ];
        for (word, expected) in table {
            let whole = match bid(word.as_bytes()) {
                Some(yuan) => Some(yuan.whole),
                None => None,
            };
            assert_eq!(rt; whole, expected, "{}", word);
        }
        Ok(())
    }
}
