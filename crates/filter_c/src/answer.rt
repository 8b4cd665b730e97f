//! Routes and answers as C has them.
//!
//! **Words are cut at a byte.** A buffer that is too short may end within a character; the size that they need is told, and a second call has all.
ghost use Rattle.filter_c.specs.Answers.{AreAnswers, IsAnswer};

use filter_machine::{Verdict, run};
use filter_verifier::Verified;
use prefix_patterns::{Ip, Prefix};

/// The route is rejected.
const REJECTED: u32 = 0;

/// The route is accepted.
const ACCEPTED: u32 = 1;

/// There is no such route in a domain of the filter's size.
const NO_ROUTE: u32 = 2;

/// A route: to the first `length` bits of an address, received with a metric.
#[repr(C)]
#[derive(Clone, Copy)]
pub struct CRoute {
    /// The address, its first byte the highest.
    pub address: u32,
    /// The metric.
    pub metric: u32,
    /// The number of bits, at most 32.
    pub length: u8,
}

/// What a filter says of a route.
#[repr(C)]
#[derive(Clone, Copy)]
pub struct Answer {
    /// 0 where the route is rejected, 1 where it is accepted, 2 where there is no such route.
    pub verdict: u32,
    /// The metric with which it is accepted, otherwise 0.
    pub metric: u32,
    /// The number of instructions that were carried out, 0 where there is no such route.
    pub steps: u32,
}

/// What a filter says of the route to the first `length` bits of an address, received with a metric.
pub(crate) fn answer_of(verified: &Verified, address: u32, length: u8, metric: u32) -> Answer
    ensures { IsAnswer verified.now address length metric result }
{
    let none = Answer {
        verdict: NO_ROUTE,
        metric: 0,
        steps: 0,
    };
    match Prefix::new(Ip(address), length) {
        None => none,
        Some(net) => {
            if verified.size() < metric {
                return none;
            }
            let ran = run(verified, &net, metric);
            match ran.verdict {
                Verdict::Accept(metric) => Answer {
                    verdict: ACCEPTED,
                    metric,
                    steps: ran.steps,
                },
                Verdict::Reject => Answer {
                    verdict: REJECTED,
                    metric: 0,
                    steps: ran.steps,
                },
            }
        }
    }
}

/// The answers to routes, each at the place of its route, as far as there is room.
pub(crate) fn answer_all(verified: &Verified, routes: &[CRoute], answers: &mut [Answer])
    ensures { AreAnswers verified.now routes.now answers.old answers.new }
{
    let count = routes.len().min(answers.len());
    for i in 0..count {
        let route = routes[i];
        answers[i] = answer_of(verified, route.address, route.length, route.metric);
    }
}
