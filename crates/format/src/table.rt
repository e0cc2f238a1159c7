// The records of the page's table: their marks, where their fields stand, their sizes, and the length of a file of so many.
ghost use Rattle.std.specs.Prelude.{◌≡◌, ◌<◌, ◌^◌};
ghost use Rattle.format.specs.Format.{sense_number, sense_from, bands_from, tasks_from, file_length, longest_file};

use plan::{MOST_BANDS, MOST_RESOURCES, MOST_TASKS, Sense};

// "Each record begins with two mark bytes." Places count from the first of them, and each field starts where the one before it ends.
pub const MARK_SIZE: usize = 2;

// PL: "sense 1, resource count 1, task count 2".
pub const SENSE: usize = MARK_SIZE;

pub const RESOURCE_COUNT: usize = SENSE + 1;

pub const TASK_COUNT: usize = RESOURCE_COUNT + 1;

pub const PL_SIZE: usize = TASK_COUNT + 2;

// RS: "identifier 4, limit 4"; RH has the "same layout".
pub const IDENTIFIER: usize = MARK_SIZE;

pub const LIMIT: usize = IDENTIFIER + 4;

pub const RS_SIZE: usize = LIMIT + 4;

// LB: "resource place (2 bytes), first day (4), limit (4)".
pub const BAND_PLACE: usize = MARK_SIZE;

pub const BAND_FROM: usize = BAND_PLACE + 2;

pub const BAND_LIMIT: usize = BAND_FROM + 4;

pub const LB_SIZE: usize = BAND_LIMIT + 4;

// TK: "set 2 (bit k is resource k), then low and high, 4 each, of origin, duration, end, height".
pub const SET: usize = MARK_SIZE;

pub const ORIGIN: usize = SET + 2;

pub const DURATION: usize = ORIGIN + 8;

pub const END: usize = DURATION + 8;

pub const HEIGHT: usize = END + 8;

pub const TK_SIZE: usize = HEIGHT + 8;

// 10,150 bytes; without bands "at most 9,382 bytes".
pub const LONGEST_FILE: usize = PL_SIZE
    + MOST_RESOURCES * RS_SIZE
    + MOST_BANDS * LB_SIZE
    + MOST_TASKS * TK_SIZE;

// Where the bands start behind so many resources.
pub fn bands_from(resources: usize) -> usize
    requires { bands_from resources < 2 ^ 64 }
    ensures { result ≡ bands_from resources }
{
    PL_SIZE + resources * RS_SIZE
}

// Where the task records start behind so many resources and bands.
pub fn tasks_from(resources: usize, bands: usize) -> usize
    requires { tasks_from resources bands < 2 ^ 64 }
    ensures { result ≡ tasks_from resources bands }
{
    bands_from(resources) + bands * LB_SIZE
}

// The length of the file of so many resources, bands and tasks: of the most of each it is the longest.
pub fn file_length(resources: usize, bands: usize, tasks: usize) -> usize
    requires { file_length resources bands tasks < 2 ^ 64 }
    ensures counted { result ≡ file_length resources bands tasks }
    ensures longest { longest_file ≡ LONGEST_FILE }
{
    tasks_from(resources, bands) + tasks * TK_SIZE
}

// "A sense for the whole plan: 0 at most, 1 at least." A file whose sense byte is above 1 is refused.
pub fn sense_number(sense: Sense) -> u8
    ensures { result ≡ sense_number sense }
{
    sense as u8
}

pub fn sense_from(b: u8) -> Sense
    ensures { result ≡ sense_from b }
{
    match b {
        0 => Sense::AtMost,
        _ => Sense::AtLeast,
    }
}
