// Lists, which are looked up with a value for indices after their end.

/// The value at a place, or another after the list's end.
pub fn at<T: Copy>(list: &[T], place: usize, other: T) -> T {
    match list.get(place) {
        Some(value) => *value,
        None => other,
    }
}

/// Sets the value at a place, if there is one.
pub fn set<T: Copy>(list: &mut [T], place: usize, value: T) {
    if place < list.len() {
        list[place] = value;
    }
}

/// The number as one of 32 bits, or the greatest of those.
pub fn narrow(number: usize) -> u32 {
    if number < 0xffff_ffff {
        number as u32
    } else {
        0xffff_ffff
    }
}
