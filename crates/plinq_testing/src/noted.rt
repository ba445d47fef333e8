/// Counts the numbers from 0 on. One that isn't the next is answered by the code 1, a marked one by 7.
pub fn note(next: &mut i64, it: (i64, bool)) -> Result<(), u32> {
    if it.0 != *next {
        return Err(1);
    }
    *next = next.wrapping_add(1);
    if it.1 { Err(7) } else { Ok(()) }
}
