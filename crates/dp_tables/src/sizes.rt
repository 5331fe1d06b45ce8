//! The sizes that the text of a model file gives, within the limits on them.
ghost use Rattle.std.specs.Prelude.{◌≡◌, ◌≤◌, ◌^◌, IfOk, map};
ghost use Rattle.std.specs.Result.{result_err};
ghost use Rattle.dp_model.specs.Limits.{first_passed, greatest_allowed, passed_by};
ghost use Rattle.dp_meaning.specs.Limits.{product_past};
ghost use Rattle.dp_meaning.specs.NameLists.{size_of};
ghost use Rattle.dp_meaning.specs.Statements.{axis_size};

use dp_meaning::GivenList;
use dp_model::{Limit, TooLarge};

/// How many states, joint actions and joint observations a model has.
#[derive(Clone, Copy)]
pub(crate) struct JointSizes {
    pub states: u32,
    pub joint_actions: u32,
    pub joint_observations: u32,
}

/// The size, where it is within its limit.
pub(crate) fn check_size(what: Limit, size: u128) -> Result<u32, TooLarge>
    requires { greatest_allowed what ≡ 256 }
    ensures passed { result_err result ≡ passed_by what size }
    ensures size { IfOk result (λ n. n ≡ size) }
    ensures limit { IfOk result (λ n. n ≤ 256) }
{
    what.check(size)?;
    Ok(size as u32)
}

/// The product of the sizes of all lists, where it is within its limit. The first product of the
/// sizes of lists 0, 1 and so on that passes the limit is the count that passes it.
pub(crate) fn check_product(what: Limit, lists: &[GivenList]) -> Result<u32, TooLarge>
    requires { greatest_allowed what ≡ 256 }
    ensures passed { result_err result ≡ passed_by what (product_past 256 1 (map size_of lists.now)) }
    ensures size { IfOk result (λ n. n ≡ axis_size lists.now) }
    ensures limit { IfOk result (λ n. n ≤ 256) }
{
    check_size(what, first_product_past(what.greatest_allowed(), lists))
}

/// The first product of the sizes of lists 0, 1 and so on that is more than `most`, or the product
/// of all.
fn first_product_past(most: u128, lists: &[GivenList]) -> u128
    requires { most ≤ 2 ^ 32 }
    ensures { result ≡ product_past most 1 (map size_of lists.now) }
{
    let mut product = 1;
    for list in lists {
        if product > most {
            return product;
        }
        product *= u128::from(list.size());
    }
    product
}
