// What a trail or a table may hold before a call.
ghost use Rattle.std.specs.Prelude.{All};
ghost use Rattle.lines.specs.Noise.{IsFromPositive};

// Every element becomes a number from 1 to 65521 that goes by its index.
pub fn fill<T: From<u16> + Drop>(elements: &mut [T])
    ensures { All (IsFromPositive T.from_gives) elements.new }
{
    for (i, element) in elements.iter_mut().enumerate() {
        let number = (i as u64 % 65521 * 40503 % 65521 + 1) as u16;
        *element = T::from(number);
    }
}
