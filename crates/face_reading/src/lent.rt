// What calls have to say to C: 0 or the number of the refusal; and, of calls that make something, place and length.
ghost use Rattle.std.specs.Prelude.{◌≡◌};
ghost use Rattle.face_reading.specs.Lent.{answer_number, made_numbers};

use answers::Answer;

pub fn answer_number<T: Copy>(answer: Answer<T>) -> u32
    ensures { result ≡ answer_number answer }
{
    match answer {
        Ok(_) => 0,
        Err(r) => r.number,
    }
}

pub fn made_numbers(made: Answer<usize>) -> [u64; 2]
    ensures { result ≡ made_numbers made }
{
    match made {
        Ok(length) => [0, length as u64],
        Err(r) => [r.place as u64, 0],
    }
}
