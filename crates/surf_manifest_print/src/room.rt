// Room for printed texts, in bytes: sums of the lengths of names, with the digits of numbers at their longest.
ghost use Rattle.std.specs.Prelude.{◌<◌, IfSome, length};
ghost use Rattle.surf_manifest.specs.Drafts.{NamesBelow, RulesBelow};
ghost use Rattle.surf_world.specs.Renamings.{RuleBelow};
ghost use Rattle.surf_world.specs.Worlds.{rule_of};

use crate::legend::{Legend, Place};
use surf_base::Text;
use surf_manifest::{Manifest, OptionLine};
use surf_rules::{Names, Rule};

// The lines that every manifest has, and those of a colormap.
const MARKS: usize = "geometry = square\nwrap = false\n".len()
    + "!START_TRANSITION_RULES\n!END_TRANSITION_RULES\n".len()
    + "!START_INIT_STATE\n!END_INIT_STATE\n".len()
    + "!START_COLORMAP\n!END_COLORMAP\n".len();
// A rate is at most seven digits, or six, a point and six.
const RULE: usize = "()  -> \n".len() + 13;

const PLUS: usize = " + ".len();

const OPTION: usize = " = \n".len();
// A word of six bytes and coordinates of ten digits.
const PLACE: usize = "# surf output   \n".len() + 20;

const EVENTS: usize = "# surf events \n".len() + 20;

fn side_room(names: &Names, first: u32, second: Option<u32>) -> usize
    requires first { first < length names.now }
    requires second { IfSome second (λ k. k < length names.now) }
{
    let room = names.text(first).len();
    match second {
        Some(second) => room
            .saturating_add(PLUS)
            .saturating_add(names.text(second).len()),
        None => room,
    }
}

fn rules_room(names: &Names, rules: &[Rule]) -> usize
    requires { RulesBelow (length names.now) rules.now }
{
    let mut room = 0usize;
    for rule in rules {
        room = room
            .saturating_add(RULE)
            .saturating_add(side_room(names, rule.left, rule.right))
            .saturating_add(side_room(names, rule.left_after, rule.right_after));
    }
    room
}

// Room for each of the first 256 names and a blank.
fn name_rooms(names: &Names) -> [usize; 256] {
    let mut rooms = [0usize; 256];
    let count = 256.min(names.len());
    for number in 0..count {
        rooms[number as usize] = names.text(number).len().saturating_add(1);
    }
    rooms
}

// Room for rows of the first 256 names.
fn few_room(rooms: &[usize; 256], start: &[u32]) -> usize
    requires { NamesBelow 256 start.now }
{
    let mut room = 0usize;
    for name in start {
        room = room.saturating_add(rooms[*name as usize]);
    }
    room
}

// Room for rows of names.
fn many_room(names: &Names, start: &[u32]) -> usize
    requires { NamesBelow (length names.now) start.now }
{
    let mut room = 0usize;
    for name in start {
        room = room
            .saturating_add(1)
            .saturating_add(names.text(*name).len());
    }
    room
}

fn start_room(names: &Names, start: &[u32]) -> usize
    requires { NamesBelow (length names.now) start.now }
{
    if names.len() <= 256 {
        few_room(&name_rooms(names), start)
    } else {
        many_room(names, start)
    }
}

fn options_room(options: &[OptionLine]) -> usize {
    let mut room = 0usize;
    for option in options {
        room = room
            .saturating_add(OPTION)
            .saturating_add(option.key.bytes().len())
            .saturating_add(option.value.bytes().len());
    }
    room
}

fn colours_room(lines: &[Text]) -> usize {
    let mut room = 0usize;
    for line in lines {
        room = room.saturating_add(1).saturating_add(line.bytes().len());
    }
    room
}

fn places_room(places: &[Place]) -> usize {
    let mut room = 0usize;
    for place in places {
        room = room
            .saturating_add(PLACE)
            .saturating_add(place.name.bytes().len());
    }
    room
}

/// Room for the lines of a legend, where there is one.
pub fn legend_room(legend: Option<&Legend>) -> usize {
    match legend {
        Some(legend) => places_room(&legend.inputs)
            .saturating_add(places_room(&legend.outputs))
            .saturating_add(EVENTS),
        None => 0,
    }
}

/// Room for the lines of a manifest.
pub fn manifest_room(manifest: &Manifest) -> usize {
    let names = manifest.names();
    let colours = match manifest.colormap() {
        Some(lines) => colours_room(lines),
        None => 0,
    };
    MARKS
        .saturating_add(options_room(manifest.options()))
        .saturating_add(rules_room(names, manifest.rules()))
        .saturating_add(start_room(names, manifest.start()))
        .saturating_add(colours)
}
