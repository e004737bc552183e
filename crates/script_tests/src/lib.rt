//! Tests of the reader and the writer of scripts, at the edges of the layout, and of running one.

#![tactic(auto)]

#[cfg(test)]
mod tests {
    use executive::Setup;
    use machine::call::Call;
    use model::Model;
    use pool::Pool;
    use script::heading::{Heading, ModelKind, PoolKind};
    use script::item::Item;
    use script::play::{Player, play_script, run_script};
    use script::read::{Script, read};
    use script::write::{write_end, write_script};
    use std::alloc::{AllocError, Global};
    use std::test::Fail;

    const NAMES: &str = "model size setting pool end cap workers\n";

    const HEAD: &str =
        "model size setting pool end cap workers\nswitch 2 3 common 100 100 2\ncall a b c\n";

    // What stands in front, what stands behind it, the first wrong line, and how many items are before it.
    const CASES: [(&str, &str, Option<u64>, usize); 27] = [
        ("", "", Some(1), 0),
        ("", "\n\n\n", Some(1), 0),
        (NAMES, "", Some(2), 0),
        (NAMES, "phold 1 1 other 1 1 1\ncall a b c\n", Some(2), 0),
        (NAMES, "phold 1 1 receiver 1 1 1\n", Some(3), 0),
        (NAMES, "phold 1 1 receiver 1 1 1\ncall a b c", Some(3), 0),
        // 80 bytes before the line feed, and 81
        (
            NAMES,
            "switch 18446744073709551615 18446744073709551615 common 18446744073709551615 1 1\ncall a b c\n",
            None,
            0,
        ),
        (
            NAMES,
            "switch 18446744073709551615 18446744073709551615 common 18446744073709551615 1 10\ncall a b c\n",
            Some(2),
            0,
        ),
        (HEAD, "", None, 0),
        (HEAD, "post 0 18446744073709551615 0\n", None, 1),
        (HEAD, "post 0 18446744073709551616 0\n", Some(4), 0),
        (HEAD, "post 0 100000000000000000000 0\n", Some(4), 0),
        (HEAD, "post 0 01 0\n", Some(4), 0),
        (HEAD, "post 0 +1 0\n", Some(4), 0),
        (HEAD, "post 0 1\n", Some(4), 0),
        (HEAD, "collect 64 0 0\ncollect 65 0 0\n", Some(5), 1),
        (HEAD, "place 0 1 0\nround 0 0 0\nplace 1 1 0\n", Some(6), 2),
        (HEAD, "round 0 0 0\nstep 0 0 0", Some(5), 1),
        (HEAD, "round 0 0 0\r\n", Some(4), 0),
        (HEAD, "round 0 0 0\n\n", Some(5), 1),
        (HEAD, "round 0 0 0 \n", Some(4), 0),
        (HEAD, "round 0  0 0\n", Some(4), 0),
        (HEAD, "Round 0 0 0\n", Some(4), 0),
        (HEAD, "rounds 0 0 0\n", Some(4), 0),
        (HEAD, "step 0 0 1\n", Some(4), 0),
        (HEAD, "step 0\0 0 0\n", Some(4), 0),
        (HEAD, "step \u{ff} 0 0\n", Some(4), 0),
    ];

    #[test]
    fn edges(rt: HostRuntime) -> Result<(), Fail> {
        for (front, behind, bad, items) in &CASES {
            let text = format!(in rt.alloc(); "{front}{behind}")?;
            let script = read(rt.alloc(), text.as_bytes())?;
            assert_eq!(rt; script.bad, *bad, "{behind}");
            assert_eq!(rt; script.items.len(), *items, "{behind}");
        }
        Ok(())
    }

    #[test]
    fn reads_back(rt: HostRuntime) -> Result<(), Fail> {
        let heading = Heading {
            model: ModelKind::Phold,
            size: 3,
            setting: 7,
            pool: PoolKind::Receiver,
            end: 90,
            most: 80,
            workers: 2,
        };
        let items = [
            Item::Place(2, 1),
            Item::Make(Call::Post(2, 5, 1)),
            Item::Make(Call::Collect(8)),
        ];
        let mut text = String::new(rt.alloc());
        write_script(&mut text, &heading, &items)?;
        assert_eq!(rt;
            text.as_str(),
            "model size setting pool end cap workers\nphold 3 7 receiver 90 80 2\ncall a b c\nplace 2 1 0\npost 2 5 1\ncollect 8 0 0\n"
        );
        let script = read(rt.alloc(), text.as_bytes())?;
        assert!(rt; script.items.len() == 3);
        assert_eq!(rt; script.items[1], items[1]);
        Ok(())
    }

    // A run of no call prints the names of the fields, and then the bad line.
    #[test]
    fn runs(rt: HostRuntime) -> Result<(), Fail> {
        let text = format!(in rt.alloc(); "{HEAD}place 1 1 0\nplace 9 9\n")?;
        assert_eq!(rt;
            run_script(rt.alloc(), text.as_bytes())?.as_str(),
            "time process sender number payload layer code w0 w1 w2 w3\nline 5\n"
        );
        Ok(())
    }

    #[test]
    fn names_the_bad_line(rt: HostRuntime) -> Result<(), Fail> {
        let mut text = String::new(rt.alloc());
        write_end(&mut text, None)?;
        assert_eq!(rt; text.as_str(), "");
        write_end(&mut text, Some(18446744073709551615))?;
        assert_eq!(rt; text.as_str(), "line 18446744073709551615\n");
        Ok(())
    }

    // What is done with a script over a setup may be anything; here it is printed whether it has items.
    struct Counts;

    impl Player for Counts {
        ghost use Rattle.std.specs.Prelude.{⊤};

        ghost prints = { λ _ _ _ _ _. ⊤ };

        fn play<M: Model + Drop, P: Pool + Drop>(
            alloc: Global,
            script: &Script,
            setup: Setup<M, P>,
        ) -> Result<String, AllocError> {
            let _executive = setup.start();
            format!(in alloc; "{}", script.items.len())
        }
    }

    #[test]
    fn plays_by_heading(rt: HostRuntime) -> Result<(), Fail> {
        let text = format!(in rt.alloc(); "{HEAD}place 1 1 0\n")?;
        let script = read(rt.alloc(), text.as_bytes())?;
        assert_eq!(rt; play_script::<Counts>(rt.alloc(), &script)?.as_str(), "1");
        Ok(())
    }
}
