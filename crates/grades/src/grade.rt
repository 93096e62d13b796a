// What a kind of grade owes: an order of its grades, and how wide they are.
ghost use Rattle.std.specs.Prelude.{ℕ};

use heap::Ordered;

pub trait Grade: Ordered + Copy {
    // how many bytes a grade takes in a frame
    ghost WIDTH: { ℕ };

    const WIDTH: usize;
}
