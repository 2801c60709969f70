// How long a head can be kept (02, A7): the most grants of its own that a request takes, whatever the others do.
#![tactic(auto)]

ghost use Rattle.std.specs.Prelude.{◌≡◌};
ghost use Rattle.rules.specs.Bounds.{levels, Logarithm};
ghost use Rattle.bounds.specs.Bounds.{limits_of};
ghost use Rattle.bounds.specs.Told.{limits_told};

use fields::check_sizes;
use job::Refusal;

// The most grants of its own that a same-set and a union take.
#[derive(Clone, Copy, Debug, PartialEq, Eq)]
pub struct Bound {
    pub same_set_grants: u32,
    pub union_grants: u32,
}

// What planners are told of a number of nodes (document 02: places): 0 and the most grants of a same-set and of a union, or a
// refusal's number and zeros.
#[repr(C)]
#[derive(Clone, Copy, Debug, PartialEq, Eq)]
pub struct Limits {
    pub number: u32,
    pub same_set_grants: u32,
    pub union_grants: u32,
}

impl From<Result<Bound, Refusal>> for Limits {
    ghost from_gives = { λ answer limits. limits ≡ limits_told answer };

    fn from(answer: Result<Bound, Refusal>) -> Limits {
        match answer {
            Ok(bound) => Limits {
                number: 0,
                same_set_grants: bound.same_set_grants,
                union_grants: bound.union_grants,
            },
            Err(refusal) => Limits {
                number: u32::from(refusal),
                same_set_grants: 0,
                union_grants: 0,
            },
        }
    }
}

// The limits of requests on that many nodes, or the refusal of a job that has as many, and one head.
pub fn limits_of(nodes: u32) -> Result<Bound, Refusal>
    ensures exact { limits_told result ≡ limits_of nodes }
    ensures logarithm { (limits_told result).number ≡ 0 → Logarithm nodes (levels nodes) }
{
    check_sizes(nodes, 1)?;
    let levels = 31 - nodes.leading_zeros();
    Ok(Bound {
        same_set_grants: 11 * nodes,
        union_grants: 22 * nodes + 10 * levels,
    })
}
