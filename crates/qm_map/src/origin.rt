ghost use Rattle.std.specs.Prelude.{◌≡◌, ◌&&◌, not, None, Some, MatchOption, bytes_eq};
ghost use Rattle.qm_grammar.specs.Origin.{origin_key, value_of};
ghost use Rattle.qm_grammar.specs.inner.Machine.{millionths_of, origin_of};

use crate::words::Words;
use qm_geom::Point;
use qm_grammar::PARTS_OF_UNIT;
use qm_mapfile::Pair;
use qm_space::WORLD_EXTENT;

/// No number of an origin is as far as this from 0.
const BOUND: u64 = WORLD_EXTENT as u64 * PARTS_OF_UNIT as u64;

/// Whether this is the key under which an entity has its origin.
#[tactic(auto, unfolding(qm_grammar::specs::Origin::origin_key))]
pub(crate) fn is_origin_key(key: &[u8]) -> bool
    ensures { result ≡ bytes_eq key.now origin_key }
{
    key == b"origin".as_slice()
}

/// Whether pairs have no origin behind one more, which has this key.
pub(crate) fn lacks_behind(lacked: bool, key: &[u8]) -> bool
    ensures { result ≡ (lacked && not (bytes_eq key.now origin_key)) }
{
    lacked && !is_origin_key(key)
}

/// The value of the first pair with the key `origin`.
pub(crate) fn first_origin(pairs: &[Pair]) -> Option<&[u8]>
    ensures { MatchOption result (value_of origin_key pairs.now ≡ None) (λ value. value_of origin_key pairs.now ≡ Some value.now) }
{
    for pair in pairs {
        if is_origin_key(pair.key.as_slice()) {
            return Some(pair.value.as_slice());
        }
    }
    None
}

/// One number of an origin, in millionths.
#[tactic(auto, unfolding(qm_grammar::specs::inner::Machine::millionths_of))]
fn millionths_of(word: &[u8]) -> Option<i64>
    ensures { result ≡ millionths_of word.now }
{
    match qm_decimal::read(word, 6) {
        Ok(fraction) => {
            let number = fraction.numerator;
            if number.unsigned_abs() < BOUND {
                Some(number)
            } else {
                None
            }
        }
        Err(_) => None,
    }
}

/// The point that the value of an origin gives.
#[tactic(auto, unfolding(qm_grammar::specs::inner::Machine::origin_of))]
pub(crate) fn origin_of(value: &[u8]) -> Option<Point>
    ensures { result ≡ origin_of value.now }
{
    let mut words = Words::new(value);
    let first = words.next()?;
    let second = words.next()?;
    let third = words.next()?;
    if words.next().is_some() {
        return None;
    }
    let x = millionths_of(first)?;
    let y = millionths_of(second)?;
    let z = millionths_of(third)?;
    Some(Point {
        x,
        y,
        z,
        w: PARTS_OF_UNIT,
    })
}
