// Tests of what calls, answers and refusals print, and of the refusal that a value outside its limits is.

#![tactic(auto)]

#[cfg(test)]
mod tests {
    use machine::call::{Answer, Call};
    use machine::refusal::Refusal;
    use model::limits::OutsideLimits;
    use sequential::event::Line;
    use std::test::Fail;

    #[test]
    fn calls_print_as_in_a_script(rt: HostRuntime) -> Result<(), Fail> {
        let alloc = rt.alloc();
        let post = Call::Post(1, 14, 0).to_string(alloc)?;
        assert!(rt; post.as_str() == "post 1 14 0");
        let absorb = Call::Absorb(7).to_string(alloc)?;
        assert!(rt; absorb.as_str() == "absorb 7 0 0");
        let step = Call::Step(0).to_string(alloc)?;
        assert!(rt; step.as_str() == "step 0 0 0");
        let round = Call::Round.to_string(alloc)?;
        assert!(rt; round.as_str() == "round 0 0 0");
        let report = Call::Report(1).to_string(alloc)?;
        assert!(rt; report.as_str() == "report 1 0 0");
        let collect = Call::Collect(64).to_string(alloc)?;
        assert!(rt; collect.as_str() == "collect 64 0 0");
        Ok(())
    }

    #[test]
    fn answers_print_their_numbers(rt: HostRuntime) -> Result<(), Fail> {
        let alloc = rt.alloc();
        let refused: Answer<Vec<Line>> = Answer::Refused(Refusal::BeforeGvt);
        let text = refused.to_string(alloc)?;
        assert!(rt; text.as_str() == "refused 4");
        let told: Answer<Vec<Line>> = Answer::Told(1, 100);
        let text = told.to_string(alloc)?;
        assert!(rt; text.as_str() == "1 100");
        let stepped: Answer<Vec<Line>> = Answer::Stepped(13, 1, 2);
        let text = stepped.to_string(alloc)?;
        assert!(rt; text.as_str() == "13 1 2");
        let lines = vec![in alloc; Line::EMPTY; 3]?;
        let collected: Answer<Vec<Line>> = Answer::Collected(lines, 5);
        let text = collected.to_string(alloc)?;
        assert!(rt; text.as_str() == "3 5");
        Ok(())
    }

    #[test]
    fn refusals_print_their_reason(rt: HostRuntime) -> Result<(), Fail> {
        let outside = Refusal::from(OutsideLimits);
        assert_eq!(rt; outside, Refusal::OutsideLimits);
        assert!(rt; outside.code() == 1);
        assert!(rt; Refusal::Reported.code() == 12);
        let text = Refusal::NoRound.to_string(rt.alloc())?;
        assert!(rt; text.as_str() == "no round is open");
        Ok(())
    }
}
