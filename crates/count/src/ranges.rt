// The ranges that lines and records ask of a number, each on a word.
#![tactic(auto, unfolding(crate::specs::Numbers::in24, crate::specs::Ranges::in_speed, crate::specs::Ranges::in_offset, crate::specs::Ranges::in_back, crate::specs::Ranges::in_loop, crate::specs::Ranges::in_delay, crate::specs::Ranges::in_character, crate::specs::Ranges::in_switch, crate::specs::Ranges::in_port, crate::specs::Ranges::in_byte, crate::specs::Ranges::in_zero, crate::specs::Ranges::in_plane, crate::specs::Ranges::in_direction, crate::specs::Ranges::in_arc, crate::specs::Ranges::in_start, crate::specs::Ranges::in_way))]

ghost use Rattle.std.specs.Prelude.{◌≡◌};
ghost use Rattle.count.specs.Numbers.{within, signed, in24};
ghost use Rattle.count.specs.Ranges.{in_speed, in_offset, in_back, in_loop, in_delay, in_character, in_switch, in_port, in_byte, in_zero, in_plane, in_direction, in_arc, in_start, in_way};

// Whether a word's number is from one limit to another, both included.
fn is_within(w: u32, low: i32, high: i32) -> bool
    ensures { result ≡ within low high (signed w) }
{
    let number = w.cast_signed();
    (low <= number) & (number <= high)
}

pub fn is_24(w: u32) -> bool
    ensures { result ≡ in24 (signed w) }
{
    is_within(w, -8_388_608, 8_388_607)
}

pub fn is_speed(w: u32) -> bool
    ensures { result ≡ in_speed (signed w) }
{
    is_within(w, 30, 10_000)
}

pub fn is_offset(w: u32) -> bool
    ensures { result ≡ in_offset (signed w) }
{
    is_within(w, -32_768, 32_767)
}

pub fn is_back(w: u32) -> bool
    ensures { result ≡ in_back (signed w) }
{
    is_within(w, -32_768, -1)
}

pub fn is_loop(w: u32) -> bool
    ensures { result ≡ in_loop (signed w) }
{
    is_within(w, 1, 32_767)
}

pub fn is_delay(w: u32) -> bool
    ensures { result ≡ in_delay (signed w) }
{
    is_within(w, 0, 65_535)
}

pub fn is_character(w: u32) -> bool
    ensures { result ≡ in_character (signed w) }
{
    is_within(w, 33, 126)
}

pub fn is_switch(w: u32) -> bool
    ensures { result ≡ in_switch (signed w) }
{
    is_within(w, 0, 1)
}

pub fn is_port(w: u32) -> bool
    ensures { result ≡ in_port (signed w) }
{
    is_within(w, 0, 3)
}

pub fn is_byte(w: u32) -> bool
    ensures { result ≡ in_byte (signed w) }
{
    is_within(w, 0, 255)
}

pub fn is_zero(w: u32) -> bool
    ensures { result ≡ in_zero (signed w) }
{
    is_within(w, 0, 0)
}

pub fn is_plane(w: u32) -> bool
    ensures { result ≡ in_plane (signed w) }
{
    is_within(w, 0, 2)
}

pub fn is_direction(w: u32) -> bool
    ensures { result ≡ in_direction (signed w) }
{
    is_within(w, -1, 0)
}

pub fn is_arc(w: u32) -> bool
    ensures { result ≡ in_arc (signed w) }
{
    is_within(w, 0, 8_388_607)
}

pub fn is_start(w: u32) -> bool
    ensures { result ≡ in_start (signed w) }
{
    is_within(w, -4_000_000, 4_000_000)
}

pub fn is_way(w: u32) -> bool
    ensures { result ≡ in_way (signed w) }
{
    is_within(w, 1, 1) | is_within(w, -1, -1)
}
