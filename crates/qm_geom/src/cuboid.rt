ghost use Rattle.std.specs.Prelude.{◌≡◌, ◌≤◌, ◌*◌, ◌^◌, ℤ, pos, negsuc, neg_ℤ, ◌*ℤ◌, ◌≤ℤ◌, ◌<ℤ◌, ◌⊎◌, unsigned_abs};
ghost use Rattle.qm_numbers.specs.Rounding.{IsRoundedDown};
ghost use Rattle.qm_space.specs.Bounds.{normal_bound, distance_bound, product_bound};
ghost use Rattle.qm_space.specs.Point.{Point, IsCoordinate};
ghost use Rattle.qm_space.specs.Plane.{value};
ghost use Rattle.qm_space.specs.Cuboid.{IsInStretch, IsInCuboid, whole_stretch, whole_cuboid, least_product, greatest_product, least_value, greatest_value, IsTightened, IsTightenedOn, IsTightenedStretch, IsTightenedBetween};
ghost use Rattle.qm_geom.specs.Vectors.{HasSmallComponents};
ghost use Rattle.qm_geom.specs.inner.Products.{least_products, greatest_products, sum_less, left_of};

use crate::plane::Plane;
use crate::vector::Vector;
use qm_space::WORLD_EXTENT;
use std::marker::Model;

/// From one whole coordinate of the closed cube to another, both included.
#[derive(Clone, Copy)]
pub struct Stretch {
    low: i32,
    high: i32,
}

impl Model for Stretch {
    ghost use Rattle.qm_space.specs.Cuboid.{Stretch, IsCoordinateStretch};

    ghost Value = { Stretch };

    ghost view = { λ s. record { low = s.low; high = s.high } };

    ghost invariant = { λ s. IsCoordinateStretch (record { low = s.low; high = s.high }) };

    ghost inverse = { λ s. record { low = s.low; high = s.high } };
}

impl Stretch {
    /// All coordinates of the closed cube.
    pub fn whole() -> Stretch
        ensures { result ≡ whole_stretch }
    {
        Stretch {
            low: -WORLD_EXTENT,
            high: WORLD_EXTENT,
        }
    }

    /// From one coordinate to another.
    pub fn between(low: i32, high: i32) -> Stretch
        requires low { IsCoordinate low }
        requires high { IsCoordinate high }
        ensures { result ≡ record { low = low; high = high } }
    {
        Stretch { low, high }
    }

    /// The whole number in its middle; of two, the one nearer to 0.
    pub fn middle(&self) -> i32
        ensures { IsCoordinate result }
    {
        (self.low + self.high) / 2
    }

    /// What is, times a component, at least a number, rounded outward. The stretch itself where that is all
    /// of it.
    fn tightened(self, component: i32, least: i64) -> Stretch
        requires component_small { unsigned_abs component ≤ normal_bound }
        requires least_small { unsigned_abs least ≤ 2 ^ 45 }
        ensures { IsTightenedStretch result self component least }
    {
        if self.least_product(component) >= least {
            return self;
        }
        if component > 0 {
            return self.from(rounded_down(least, i64::from(component)));
        }
        if component < 0 {
            return self.up_to(-rounded_down(least, -i64::from(component)));
        }
        self
    }

    /// What is, times a component, from one number to another, rounded outward.
    fn tightened_between(self, component: i32, least: i64, greatest: i64) -> Stretch
        requires component_small { unsigned_abs component ≤ normal_bound }
        requires least_small { unsigned_abs least ≤ 2 ^ 45 }
        requires greatest_small { unsigned_abs greatest ≤ 2 ^ 45 }
        ensures { IsTightenedBetween result self component least greatest }
    {
        self.tightened(component, least)
            .tightened(-component, -greatest)
    }

    /// The numbers of the stretch from a number on; only its high end where that is above them all.
    fn from(self, least: i64) -> Stretch
        ensures { IsTightenedStretch result self (pos 1) least }
    {
        Stretch {
            low: self.low_from(least),
            high: self.high,
        }
    }

    fn low_from(&self, least: i64) -> i32
        ensures coordinate { IsCoordinate result }
        ensures bound { (result ≤ℤ self.now.low) ⊎ (result ≤ℤ least) }
    {
        if least <= i64::from(self.low) {
            return self.low;
        }
        if least < i64::from(self.high) {
            return least as i32;
        }
        self.high
    }

    /// The numbers of the stretch up to a number; only its low end where that is below them all.
    fn up_to(self, greatest: i64) -> Stretch
        ensures { IsTightenedStretch result self (negsuc 0) (neg_ℤ greatest) }
    {
        Stretch {
            low: self.low,
            high: self.high_up_to(greatest),
        }
    }

    fn high_up_to(&self, greatest: i64) -> i32
        ensures coordinate { IsCoordinate result }
        ensures bound { (self.now.high ≤ℤ result) ⊎ (greatest ≤ℤ result) }
    {
        if greatest >= i64::from(self.high) {
            return self.high;
        }
        if greatest > i64::from(self.low) {
            return greatest as i32;
        }
        self.low
    }

    /// The least product of a component and a number of the stretch.
    #[tactic(auto, unfolding(qm_space::specs::Cuboid::least_product))]
    fn least_product(&self, component: i32) -> i64
        requires { unsigned_abs component ≤ normal_bound }
        ensures exact { result ≡ least_product component self.now }
        ensures size { unsigned_abs result ≤ product_bound }
    {
        if component < 0 {
            times(component, self.high)
        } else {
            times(component, self.low)
        }
    }

    /// The greatest product of a component and a number of the stretch.
    #[tactic(auto, unfolding(qm_space::specs::Cuboid::greatest_product))]
    fn greatest_product(&self, component: i32) -> i64
        requires { unsigned_abs component ≤ normal_bound }
        ensures exact { result ≡ greatest_product component self.now }
        ensures size { unsigned_abs result ≤ product_bound }
    {
        if component < 0 {
            times(component, self.low)
        } else {
            times(component, self.high)
        }
    }
}

/// A component of a normal times a coordinate.
fn times(component: i32, coordinate: i32) -> i64
    requires component_small { unsigned_abs component ≤ normal_bound }
    requires coordinate_in_cube { IsCoordinate coordinate }
    ensures exact { result ≡ component *ℤ coordinate }
    ensures size { unsigned_abs result ≤ product_bound }
{
    i64::from(component) * i64::from(coordinate)
}

/// The greatest whole number that is, times a factor, at most a number.
fn rounded_down(number: i64, factor: i64) -> i64
    requires factor_positive { pos 0 <ℤ factor }
    requires number_small { unsigned_abs number ≤ 2 ^ 45 }
    ensures exact { IsRoundedDown number factor result }
    ensures size { unsigned_abs result ≤ 2 ^ 45 }
{
    number.div_euclid(factor)
}

/// A stretch across each axis: of something in the closed cube, all its points lie in it.
#[derive(Clone, Copy)]
pub struct Cuboid {
    pub x: Stretch,
    pub y: Stretch,
    pub z: Stretch,
}

impl Model for Cuboid {
    ghost use Rattle.qm_space.specs.Cuboid.{Cuboid};

    ghost Value = { Cuboid };

    ghost view = { λ c. record { x = c.x; y = c.y; z = c.z } };

    ghost inverse = { λ c. record { x = c.x; y = c.y; z = c.z } };
}

impl Cuboid {
    /// The closed cube.
    pub fn whole() -> Cuboid
        ensures { result ≡ whole_cuboid }
    {
        Cuboid {
            x: Stretch::whole(),
            y: Stretch::whole(),
            z: Stretch::whole(),
        }
    }

    /// The least value of a plane at a point of the cuboid, for points of `w = 1`.
    pub fn least_value(&self, plane: &Plane) -> i64
        ensures exact { result ≡ least_value plane.now self.now }
        ensures bound { (p : Point) → IsInCuboid self.now p → (result *ℤ p.w) ≤ℤ value plane.now p }
    {
        sum_less(self.least_products(plane), plane.d)
    }

    /// The greatest one.
    pub fn greatest_value(&self, plane: &Plane) -> i64
        ensures exact { result ≡ greatest_value plane.now self.now }
        ensures bound { (p : Point) → IsInCuboid self.now p → value plane.now p ≤ℤ (result *ℤ p.w) }
    {
        sum_less(self.greatest_products(plane), plane.d)
    }

    /// A cuboid that has all of this one that is not behind a plane: across each axis by what the two
    /// others leave of the distance.
    pub fn tightened(self, plane: &Plane) -> Cuboid
        ensures { IsTightened result self plane.now }
    {
        let least = left_of(self.greatest_products(plane), plane.d);
        Cuboid {
            x: self.x.tightened(plane.nx, least.x),
            y: self.y.tightened(plane.ny, least.y),
            z: self.z.tightened(plane.nz, least.z),
        }
    }

    /// A cuboid that has all of this one that is on a plane.
    pub fn tightened_on(self, plane: &Plane) -> Cuboid
        ensures { IsTightenedOn result self plane.now }
    {
        let least = left_of(self.greatest_products(plane), plane.d);
        let greatest = left_of(self.least_products(plane), plane.d);
        Cuboid {
            x: self.x.tightened_between(plane.nx, least.x, greatest.x),
            y: self.y.tightened_between(plane.ny, least.y, greatest.y),
            z: self.z.tightened_between(plane.nz, least.z, greatest.z),
        }
    }

    fn least_products(&self, plane: &Plane) -> Vector
        ensures exact { result ≡ least_products plane.now self.now }
        ensures size { HasSmallComponents result (product_bound) }
    {
        Vector {
            x: self.x.least_product(plane.nx),
            y: self.y.least_product(plane.ny),
            z: self.z.least_product(plane.nz),
        }
    }

    fn greatest_products(&self, plane: &Plane) -> Vector
        ensures exact { result ≡ greatest_products plane.now self.now }
        ensures size { HasSmallComponents result (product_bound) }
    {
        Vector {
            x: self.x.greatest_product(plane.nx),
            y: self.y.greatest_product(plane.ny),
            z: self.z.greatest_product(plane.nz),
        }
    }
}

/// The sum of three products, one for each axis, less a distance.
fn sum_less(products: Vector, distance: i64) -> i64
    requires products_small { HasSmallComponents products (product_bound) }
    requires distance_small { unsigned_abs distance ≤ distance_bound }
    ensures exact { result ≡ sum_less products distance }
    ensures size { unsigned_abs result ≤ 2 ^ 45 }
{
    products.x + products.y + products.z - distance
}

/// What the products of the two other axes leave of a distance, for each axis.
fn left_of(products: Vector, distance: i64) -> Vector
    requires products_small { HasSmallComponents products (product_bound) }
    requires distance_small { unsigned_abs distance ≤ distance_bound }
    ensures exact { result ≡ left_of products distance }
    ensures size { HasSmallComponents result (2 ^ 45) }
{
    Vector {
        x: distance - products.y - products.z,
        y: distance - products.z - products.x,
        z: distance - products.x - products.y,
    }
}
