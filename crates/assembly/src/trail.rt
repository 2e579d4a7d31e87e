// The lent trail after a score: two parallel arrays of 32, and later numbers as they were.
ghost use Rattle.std.specs.Prelude.{◌≡◌, ◌≤◌, length};
ghost use Rattle.search.specs.Trail.{array_of, written};
ghost use Rattle.state.specs.Inner.Views.{trail_of};

use state::trail::Trail;

// The numbers become the sizes. A loop: the library's copies do not turn u8 into u32.
fn put_sizes(sizes: &[u8], numbers: &mut [u32])
    requires { length sizes.now ≡ length numbers.old }
    ensures { numbers.new ≡ sizes.now }
{
    for (i, size) in sizes.iter().enumerate() {
        numbers[i] = u32::from(*size);
    }
}

// An array of the trail becomes these numbers with zeros after them: what is left of it is lent on to be cleared. A loop: by copy_from_slice the archive
// for C would need memmove of its host.
fn put(numbers: &[u32], array: &mut [u32])
    requires { (length numbers.now ≤ 32) × (length array.old ≡ 32) }
    ensures { array.new ≡ array_of numbers.now }
{
    let (front, rest) = array.split_at_mut(numbers.len());
    for (i, number) in numbers.iter().enumerate() {
        front[i] = *number;
    }
    clear::zero_numbers(rest);
}

// The match numbers go to the first array and the sizes to the second.
pub fn write(t: &Trail, trail: &mut [u32])
    requires { 64 ≤ length trail.old }
    ensures { trail.new ≡ written (trail_of t.now) trail.old }
{
    let sizes = t.sizes();
    let mut wide = [0u32; 32];
    let wide = &mut wide[..sizes.len()];
    put_sizes(sizes, wide);
    let (first, rest) = trail.split_at_mut(32);
    let (second, _) = rest.split_at_mut(32);
    put(t.numbers(), first);
    put(wide, second);
}
