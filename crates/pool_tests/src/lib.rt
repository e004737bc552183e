//! Tests of the two pools, through the trait.

#![tactic(auto)]

ghost use Rattle.std.specs.Prelude.{◌≡◌, ◌<◌, ◌≤◌, true};
ghost use Rattle.pool.specs.Lanes.{is_pair, lies};

#[cfg(test)]
mod tests {
    use pool::Pool;
    use pool::common::CommonPool;
    use pool::receiver::ReceiverPool;
    use std::test::Fail;

    // more than a pool has
    const TRIES: u64 = 300;

    // Sends with each grant that the pair is given, and says how many there were.
    fn drain<P: Pool>(pool: &mut P, side: u8, worker: u8) -> u64
        ensures few { result ≤ 300 }
        ensures none_left { result < 300 → is_pair side worker ≡ true
            → lies (P.lanes.draw side worker) (P.places pool.new) ≡ 0 }
    {
        for sent in 0..TRIES {
            let Some(grant) = pool.draw(side, worker) else {
                return sent;
            };
            let _ = grant.send();
        }
        TRIES
    }

    #[test]
    fn common_runs_out(rt: HostRuntime) {
        let mut pool = CommonPool::make();
        assert!(rt; pool.count(0) == 256);
        assert!(rt; pool.count(1) == 0);
        assert!(rt; drain(&mut pool, 8, 7) == 256);
        assert!(rt; drain(&mut pool, 0, 0) == 0);
        assert!(rt; pool.count(0) == 0);
    }

    #[test]
    fn receivers_lane_runs_out(rt: HostRuntime) {
        let mut pool = ReceiverPool::make();
        assert!(rt; drain(&mut pool, 2, 5) == 32);
        assert!(rt; drain(&mut pool, 8, 5) == 0);
        assert!(rt; pool.count(5) == 0);
        assert!(rt; pool.count(4) == 32);
        assert!(rt; pool.count(8) == 0);
        assert!(rt; drain(&mut pool, 2, 4) == 32);
    }

    #[test]
    fn return_of_a_buffer_that_is_in(rt: HostRuntime) {
        let mut pool = ReceiverPool::make();
        assert!(rt; !pool.take_back(40, 0, 1));
        assert!(rt; pool.count(1) == 32);
        assert!(rt; drain(&mut pool, 0, 1) == 32);
        assert!(rt; pool.take_back(40, 0, 3));
        assert!(rt; !pool.take_back(40, 0, 3));
        assert!(rt; pool.count(3) == 33);
    }

    #[test]
    fn handed_back(rt: HostRuntime) -> Result<(), Fail> {
        let mut pool = CommonPool::make();
        let Some(grant) = pool.draw(3, 4) else {
            panic!(rt; "a new pool refused");
        };
        let left = pool.count(0);
        assert!(rt; pool.hand_back(grant, 3, 4));
        assert!(rt; left == 255);
        assert!(rt; pool.count(0) == 256);
        Ok(())
    }

    #[test]
    fn pairs_at_and_past_their_limits(rt: HostRuntime) {
        let mut pool = ReceiverPool::make();
        assert!(rt; drain(&mut pool, 8, 7) == 32);
        assert!(rt; drain(&mut pool, 9, 6) == 0);
        assert!(rt; drain(&mut pool, 8, 8) == 0);
        assert!(rt; !pool.take_back(255, 9, 7));
        assert!(rt; !pool.take_back(255, 8, 8));
        assert!(rt; pool.take_back(255, 8, 7));
    }
}
