ghost use Rattle.std.specs.Prelude.{◌≡◌, ◌≤◌, ◌*◌, ◌^◌, ◌*ℤ◌, ◌-ℤ◌, unsigned_abs};
ghost use Rattle.qm_space.specs.Point.{whole_point, IsThousandths, AreThousandths};

/// A step from one point to another, a normal, or the distances of three planes.
#[derive(Clone, Copy)]
pub struct Vector {
    pub x: i64,
    pub y: i64,
    pub z: i64,
}

impl Vector {
    ghost use Rattle.qm_geom.specs.Vectors.{vector_of, vector_between, cross_vector, dot, HasSmallComponents};

    /// Three numbers.
    pub(crate) fn of(numbers: [i32; 3]) -> Vector
        ensures { result ≡ vector_of numbers }
    {
        Vector {
            x: i64::from(numbers[0]),
            y: i64::from(numbers[1]),
            z: i64::from(numbers[2]),
        }
    }

    /// The step from one point to another, both whole or both in thousandths of a map unit.
    pub fn between(from: [i32; 3], to: [i32; 3]) -> Vector
        requires from_in_cube { AreThousandths from }
        requires to_in_cube { AreThousandths to }
        ensures exact { result ≡ vector_between (whole_point from) (whole_point to) }
        ensures size { HasSmallComponents result (2 ^ 26) }
    {
        Vector {
            x: difference(from[0], to[0]),
            y: difference(from[1], to[1]),
            z: difference(from[2], to[2]),
        }
    }

    /// The cross product of two steps or normals.
    pub fn cross(&self, other: &Vector) -> Vector
        requires self_small { HasSmallComponents self.now (2 ^ 26) }
        requires other_small { HasSmallComponents other.now (2 ^ 26) }
        ensures exact { result ≡ cross_vector self.now other.now }
        ensures size { HasSmallComponents result (2 ^ 53) }
    {
        Vector {
            x: crossed(self.y, other.z, self.z, other.y),
            y: crossed(self.z, other.x, self.x, other.z),
            z: crossed(self.x, other.y, self.y, other.x),
        }
    }

    /// The dot product.
    pub(crate) fn dot(&self, other: &Vector) -> i128
        requires { HasSmallComponents self.now (2 ^ 53) }
        ensures exact { result ≡ dot self.now other.now }
        ensures size { unsigned_abs result ≤ 3 * 2 ^ 116 }
    {
        let of_x = product(self.x, other.x);
        let of_y = product(self.y, other.y);
        let of_z = product(self.z, other.z);
        of_x + of_y + of_z
    }
}

fn difference(from: i32, to: i32) -> i64
    requires from_in_cube { IsThousandths from }
    requires to_in_cube { IsThousandths to }
    ensures exact { result ≡ to -ℤ from }
    ensures size { unsigned_abs result ≤ 2 ^ 26 }
{
    i64::from(to) - i64::from(from)
}

fn crossed(first: i64, second: i64, third: i64, fourth: i64) -> i64
    requires first_small { unsigned_abs first ≤ 2 ^ 26 }
    requires second_small { unsigned_abs second ≤ 2 ^ 26 }
    requires third_small { unsigned_abs third ≤ 2 ^ 26 }
    requires fourth_small { unsigned_abs fourth ≤ 2 ^ 26 }
    ensures exact { result ≡ (first *ℤ second) -ℤ (third *ℤ fourth) }
    ensures size { unsigned_abs result ≤ 2 ^ 53 }
{
    first * second - third * fourth
}

/// The product of two numbers of 64 bits, which 128 bits hold.
pub(crate) fn product(first: i64, second: i64) -> i128
    ensures exact { result ≡ first *ℤ second }
    ensures size { unsigned_abs result ≤ 2 ^ 126 }
{
    i128::from(first) * i128::from(second)
}
