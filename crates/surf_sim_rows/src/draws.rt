// Draws, against numbers that were computed apart from this code.
use surf_pick::Draw;

// The generator was written anew in another language for these: its first word at seed 0,
// 2354861276966075475, is the one that the Rust crate's own tests state. The second and third
// draws take three tries and two.
#[test]
fn draws_the_words_of_the_seed(rt: HostRuntime) {
    let mut draw = Draw::new(0);
    assert_eq!(rt;
        draw.below(u128::MAX),
        43439523305282059821465230189755591163
    );
    assert_eq!(rt;
        draw.below((1 << 127) + 1),
        67755620531183276317311150181849560265
    );
    assert_eq!(rt;
        draw.below((1 << 127) + 1),
        148410868183531303737760908107602825718
    );
    assert_eq!(rt; draw.below(6), 3);
    assert_eq!(rt; draw.below(6), 5);
}
