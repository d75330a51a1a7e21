//! The class of each of the 256 bytes.
ghost use Rattle.std.specs.Prelude.{◌≡◌};
ghost use Rattle.reader.specs.Classes.{Classed, class_of};

// What a byte is to the reader.
#[derive(Clone, Copy, PartialEq, Eq, Debug)]
pub enum Class {
    // a byte that no text may hold bare
    Bad,
    // a byte of a run of spaces
    Space,
    // a backslash, a brace, `&` or `#`
    Special,
    // a byte of a word or of a control word
    Letter,
    // any other byte of a word
    Other,
}

// The classes of the bytes 0 to 255, in their order: one constant table, of which the rule of each byte is shown once.
static CLASSES: [Class; 256] = [
    Class::Bad, // 0
    Class::Bad, // 1
    Class::Bad, // 2
    Class::Bad, // 3
    Class::Bad, // 4
    Class::Bad, // 5
    Class::Bad, // 6
    Class::Bad, // 7
    Class::Bad, // 8
    Class::Bad, // 9
    Class::Space, // 10 newline
    Class::Bad, // 11
    Class::Bad, // 12
    Class::Bad, // 13
    Class::Bad, // 14
    Class::Bad, // 15
    Class::Bad, // 16
    Class::Bad, // 17
    Class::Bad, // 18
    Class::Bad, // 19
    Class::Bad, // 20
    Class::Bad, // 21
    Class::Bad, // 22
    Class::Bad, // 23
    Class::Bad, // 24
    Class::Bad, // 25
    Class::Bad, // 26
    Class::Bad, // 27
    Class::Bad, // 28
    Class::Bad, // 29
    Class::Bad, // 30
    Class::Bad, // 31
    Class::Space, // 32 space
    Class::Other, // 33 !
    Class::Other, // 34 "
    Class::Special, // 35 #
    Class::Bad, // 36 $
    Class::Bad, // 37 %
    Class::Special, // 38 &
    Class::Other, // 39 '
    Class::Other, // 40 (
    Class::Other, // 41 )
    Class::Other, // 42 *
    Class::Other, // 43 +
    Class::Other, // 44 ,
    Class::Other, // 45 -
    Class::Other, // 46 .
    Class::Other, // 47 /
    Class::Other, // 48 0
    Class::Other, // 49 1
    Class::Other, // 50 2
    Class::Other, // 51 3
    Class::Other, // 52 4
    Class::Other, // 53 5
    Class::Other, // 54 6
    Class::Other, // 55 7
    Class::Other, // 56 8
    Class::Other, // 57 9
    Class::Other, // 58 :
    Class::Other, // 59 ;
    Class::Other, // 60 <
    Class::Other, // 61 =
    Class::Other, // 62 >
    Class::Other, // 63 ?
    Class::Other, // 64 @
    Class::Letter, // 65 A
    Class::Letter, // 66 B
    Class::Letter, // 67 C
    Class::Letter, // 68 D
    Class::Letter, // 69 E
    Class::Letter, // 70 F
    Class::Letter, // 71 G
    Class::Letter, // 72 H
    Class::Letter, // 73 I
    Class::Letter, // 74 J
    Class::Letter, // 75 K
    Class::Letter, // 76 L
    Class::Letter, // 77 M
    Class::Letter, // 78 N
    Class::Letter, // 79 O
    Class::Letter, // 80 P
    Class::Letter, // 81 Q
    Class::Letter, // 82 R
    Class::Letter, // 83 S
    Class::Letter, // 84 T
    Class::Letter, // 85 U
    Class::Letter, // 86 V
    Class::Letter, // 87 W
    Class::Letter, // 88 X
    Class::Letter, // 89 Y
    Class::Letter, // 90 Z
    Class::Other, // 91 [
    Class::Special, // 92 \
    Class::Other, // 93 ]
    Class::Bad, // 94 ^
    Class::Bad, // 95 _
    Class::Other, // 96 `
    Class::Letter, // 97 a
    Class::Letter, // 98 b
    Class::Letter, // 99 c
    Class::Letter, // 100 d
    Class::Letter, // 101 e
    Class::Letter, // 102 f
    Class::Letter, // 103 g
    Class::Letter, // 104 h
    Class::Letter, // 105 i
    Class::Letter, // 106 j
    Class::Letter, // 107 k
    Class::Letter, // 108 l
    Class::Letter, // 109 m
    Class::Letter, // 110 n
    Class::Letter, // 111 o
    Class::Letter, // 112 p
    Class::Letter, // 113 q
    Class::Letter, // 114 r
    Class::Letter, // 115 s
    Class::Letter, // 116 t
    Class::Letter, // 117 u
    Class::Letter, // 118 v
    Class::Letter, // 119 w
    Class::Letter, // 120 x
    Class::Letter, // 121 y
    Class::Letter, // 122 z
    Class::Special, // 123 {
    Class::Other, // 124 |
    Class::Special, // 125 }
    Class::Bad, // 126 ~
    Class::Bad, // 127
    Class::Bad, // 128
    Class::Bad, // 129
    Class::Bad, // 130
    Class::Bad, // 131
    Class::Bad, // 132
    Class::Bad, // 133
    Class::Bad, // 134
    Class::Bad, // 135
    Class::Bad, // 136
    Class::Bad, // 137
    Class::Bad, // 138
    Class::Bad, // 139
    Class::Bad, // 140
    Class::Bad, // 141
    Class::Bad, // 142
    Class::Bad, // 143
    Class::Bad, // 144
    Class::Bad, // 145
    Class::Bad, // 146
    Class::Bad, // 147
    Class::Bad, // 148
    Class::Bad, // 149
    Class::Bad, // 150
    Class::Bad, // 151
    Class::Bad, // 152
    Class::Bad, // 153
    Class::Bad, // 154
    Class::Bad, // 155
    Class::Bad, // 156
    Class::Bad, // 157
    Class::Bad, // 158
    Class::Bad, // 159
    Class::Bad, // 160
    Class::Bad, // 161
    Class::Bad, // 162
    Class::Bad, // 163
    Class::Bad, // 164
    Class::Bad, // 165
    Class::Bad, // 166
    Class::Bad, // 167
    Class::Bad, // 168
    Class::Bad, // 169
    Class::Bad, // 170
    Class::Bad, // 171
    Class::Bad, // 172
    Class::Bad, // 173
    Class::Bad, // 174
    Class::Bad, // 175
    Class::Bad, // 176
    Class::Bad, // 177
    Class::Bad, // 178
    Class::Bad, // 179
    Class::Bad, // 180
    Class::Bad, // 181
    Class::Bad, // 182
    Class::Bad, // 183
    Class::Bad, // 184
    Class::Bad, // 185
    Class::Bad, // 186
    Class::Bad, // 187
    Class::Bad, // 188
    Class::Bad, // 189
    Class::Bad, // 190
    Class::Bad, // 191
    Class::Bad, // 192
    Class::Bad, // 193
    Class::Bad, // 194
    Class::Bad, // 195
    Class::Bad, // 196
    Class::Bad, // 197
    Class::Bad, // 198
    Class::Bad, // 199
    Class::Bad, // 200
    Class::Bad, // 201
    Class::Bad, // 202
    Class::Bad, // 203
    Class::Bad, // 204
    Class::Bad, // 205
    Class::Bad, // 206
    Class::Bad, // 207
    Class::Bad, // 208
    Class::Bad, // 209
    Class::Bad, // 210
    Class::Bad, // 211
    Class::Bad, // 212
    Class::Bad, // 213
    Class::Bad, // 214
    Class::Bad, // 215
    Class::Bad, // 216
    Class::Bad, // 217
    Class::Bad, // 218
    Class::Bad, // 219
    Class::Bad, // 220
    Class::Bad, // 221
    Class::Bad, // 222
    Class::Bad, // 223
    Class::Bad, // 224
    Class::Bad, // 225
    Class::Bad, // 226
    Class::Bad, // 227
    Class::Bad, // 228
    Class::Bad, // 229
    Class::Bad, // 230
    Class::Bad, // 231
    Class::Bad, // 232
    Class::Bad, // 233
    Class::Bad, // 234
    Class::Bad, // 235
    Class::Bad, // 236
    Class::Bad, // 237
    Class::Bad, // 238
    Class::Bad, // 239
    Class::Bad, // 240
    Class::Bad, // 241
    Class::Bad, // 242
    Class::Bad, // 243
    Class::Bad, // 244
    Class::Bad, // 245
    Class::Bad, // 246
    Class::Bad, // 247
    Class::Bad, // 248
    Class::Bad, // 249
    Class::Bad, // 250
    Class::Bad, // 251
    Class::Bad, // 252
    Class::Bad, // 253
    Class::Bad, // 254
    Class::Bad, // 255
];

// The class of a byte.
pub fn class_of(b: u8) -> Class
    ensures answer { result ≡ class_of b }
    ensures law { Classed b result }
    ensures only { (c : Class) → Classed b c → c ≡ result }
{
    CLASSES[b as usize]
}
