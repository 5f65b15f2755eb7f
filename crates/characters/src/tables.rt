// The ranges of Unicode 16.0.0, made from its file UnicodeData.txt by crates/characters/tables: a range in one number, its first code point times 2,048 and
// how many follow. So a table takes half the stack of whoever lends it.

// The general categories P (punctuation) and S (symbol): for each 1,024 code points the number of the first range that ends there or
// later, or else of the last one, 129 numbers; and then the ranges.
pub const PUNCTUATION: [u32; 478] = [
    0, // from U+0000
    23, // from U+0400
    43, // from U+0800
    55, // from U+0C00
    74, // from U+1000
    79, // from U+1400
    86, // from U+1800
    97, // from U+1C00
    107, // from U+2000
    127, // from U+2400
    131, // from U+2800
    134, // from U+2C00
    144, // from U+3000
    162, // from U+3400
    162, // from U+3800
    162, // from U+3C00
    162, // from U+4000
    162, // from U+4400
    162, // from U+4800
    162, // from U+4C00
    163, // from U+5000
    163, // from U+5400
    163, // from U+5800
    163, // from U+5C00
    163, // from U+6000
    163, // from U+6400
    163, // from U+6800
    163, // from U+6C00
    163, // from U+7000
    163, // from U+7400
    163, // from U+7800
    163, // from U+7C00
    163, // from U+8000
    163, // from U+8400
    163, // from U+8800
    163, // from U+8C00
    163, // from U+9000
    163, // from U+9400
    163, // from U+9800
    163, // from U+9C00
    163, // from U+A000
    163, // from U+A400
    172, // from U+A800
    189, // from U+AC00
    189, // from U+B000
    189, // from U+B400
    189, // from U+B800
    189, // from U+BC00
    189, // from U+C000
    189, // from U+C400
    189, // from U+C800
    189, // from U+CC00
    189, // from U+D000
    189, // from U+D400
    189, // from U+D800
    189, // from U+DC00
    189, // from U+E000
    189, // from U+E400
    189, // from U+E800
    189, // from U+EC00
    189, // from U+F000
    189, // from U+F400
    189, // from U+F800
    191, // from U+FC00
    205, // from U+10000
    214, // from U+10400
    215, // from U+10800
    225, // from U+10C00
    230, // from U+11000
    243, // from U+11400
    252, // from U+11800
    260, // from U+11C00
    266, // from U+12000
    266, // from U+12400
    267, // from U+12800
    267, // from U+12C00
    268, // from U+13000
    268, // from U+13400
    268, // from U+13800
    268, // from U+13C00
    268, // from U+14000
    268, // from U+14400
    268, // from U+14800
    268, // from U+14C00
    268, // from U+15000
    268, // from U+15400
    268, // from U+15800
    268, // from U+15C00
    268, // from U+16000
    268, // from U+16400
    268, // from U+16800
    272, // from U+16C00
    275, // from U+17000
    275, // from U+17400
    275, // from U+17800
    275, // from U+17C00
    275, // from U+18000
    275, // from U+18400
    275, // from U+18800
    275, // from U+18C00
    275, // from U+19000
    275, // from U+19400
    275, // from U+19800
    275, // from U+19C00
    275, // from U+1A000
    275, // from U+1A400
    275, // from U+1A800
    275, // from U+1AC00
    275, // from U+1B000
    275, // from U+1B400
    275, // from U+1B800
    275, // from U+1BC00
    277, // from U+1C000
    277, // from U+1C400
    277, // from U+1C800
    277, // from U+1CC00
    280, // from U+1D000
    290, // from U+1D400
    300, // from U+1D800
    305, // from U+1DC00
    305, // from U+1E000
    307, // from U+1E400
    308, // from U+1E800
    309, // from U+1EC00
    313, // from U+1F000
    325, // from U+1F400
    332, // from U+1F800
    348, // from U+1FC00
    348, // from U+20000
    67598, // U+0021 to U+002F
    118790, // U+003A to U+0040
    186373, // U+005B to U+0060
    251907, // U+007B to U+007E
    329736, // U+00A1 to U+00A9
    350209, // U+00AB to U+00AC
    356355, // U+00AE to U+00B1
    368640, // U+00B4 to U+00B4
    372738, // U+00B6 to U+00B8
    382976, // U+00BB to U+00BB
    391168, // U+00BF to U+00BF
    440320, // U+00D7 to U+00D7
    505856, // U+00F7 to U+00F7
    1445891, // U+02C2 to U+02C5
    1478669, // U+02D2 to U+02DF
    1517574, // U+02E5 to U+02EB
    1533952, // U+02ED to U+02ED
    1538064, // U+02EF to U+02FF
    1812480, // U+0375 to U+0375
    1830912, // U+037E to U+037E
    1843201, // U+0384 to U+0385
    1849344, // U+0387 to U+0387
    2076672, // U+03F6 to U+03F6
    2363392, // U+0482 to U+0482
    2805765, // U+055A to U+055F
    2902017, // U+0589 to U+058A
    2910210, // U+058D to U+058F
    3010560, // U+05BE to U+05BE
    3014656, // U+05C0 to U+05C0
    3020800, // U+05C3 to U+05C3
    3026944, // U+05C6 to U+05C6
    3119105, // U+05F3 to U+05F4
    3158025, // U+0606 to U+060F
    3201024, // U+061B to U+061B
    3205122, // U+061D to U+061F
    3362819, // U+066A to U+066D
    3579904, // U+06D4 to U+06D4
    3600384, // U+06DE to U+06DE
    3622912, // U+06E9 to U+06E9
    3663873, // U+06FD to U+06FE
    3670029, // U+0700 to U+070D
    4173827, // U+07F6 to U+07F9
    4190209, // U+07FE to U+07FF
    4292622, // U+0830 to U+083E
    4386816, // U+085E to U+085E
    4472832, // U+0888 to U+0888
    4923393, // U+0964 to U+0965
    4947968, // U+0970 to U+0970
    5214209, // U+09F2 to U+09F3
    5230593, // U+09FA to U+09FB
    5236736, // U+09FD to U+09FD
    5484544, // U+0A76 to U+0A76
    5734401, // U+0AF0 to U+0AF1
    5996544, // U+0B70 to U+0B70
    6264839, // U+0BF3 to U+0BFA
    6535168, // U+0C77 to U+0C77
    6551552, // U+0C7F to U+0C7F
    6561792, // U+0C84 to U+0C84
    6977536, // U+0D4F to U+0D4F
    7063552, // U+0D79 to U+0D79
    7315456, // U+0DF4 to U+0DF4
    7469056, // U+0E3F to U+0E3F
    7501824, // U+0E4F to U+0E4F
    7524353, // U+0E5A to U+0E5B
    7866390, // U+0F01 to U+0F17
    7917573, // U+0F1A to U+0F1F
    7970816, // U+0F34 to U+0F34
    7974912, // U+0F36 to U+0F36
    7979008, // U+0F38 to U+0F38
    7983107, // U+0F3A to U+0F3D
    8136704, // U+0F85 to U+0F85
    8253447, // U+0FBE to U+0FC5
    8271877, // U+0FC7 to U+0FCC
    8286220, // U+0FCE to U+0FDA
    8540165, // U+104A to U+104F
    8712193, // U+109E to U+109F
    8902656, // U+10FB to U+10FB
    10158088, // U+1360 to U+1368
    10256393, // U+1390 to U+1399
    10485760, // U+1400 to U+1400
    11757569, // U+166D to U+166E
    11851777, // U+169B to U+169C
    12015618, // U+16EB to U+16ED
    12167169, // U+1735 to U+1736
    12492802, // U+17D4 to U+17D6
    12500995, // U+17D8 to U+17DB
    12582922, // U+1800 to U+180A
    13238272, // U+1940 to U+1940
    13246465, // U+1944 to U+1945
    13561889, // U+19DE to U+19FF
    13692929, // U+1A1E to U+1A1F
    13959174, // U+1AA0 to U+1AA6
    13975557, // U+1AA8 to U+1AAD
    14315521, // U+1B4E to U+1B4F
    14340112, // U+1B5A to U+1B6A
    14393355, // U+1B74 to U+1B7F
    14671875, // U+1BFC to U+1BFF
    14800900, // U+1C3B to U+1C3F
    14938113, // U+1C7E to U+1C7F
    15073287, // U+1CC0 to U+1CC7
    15112192, // U+1CD3 to U+1CD3
    16640000, // U+1FBD to U+1FBD
    16644098, // U+1FBF to U+1FC1
    16672770, // U+1FCD to U+1FCF
    16705538, // U+1FDD to U+1FDF
    16738306, // U+1FED to U+1FEF
    16771073, // U+1FFD to U+1FFE
    16810007, // U+2010 to U+2027
    16875566, // U+2030 to U+205E
    17027076, // U+207A to U+207E
    17059844, // U+208A to U+208E
    17104928, // U+20A0 to U+20C0
    17301505, // U+2100 to U+2101
    17307651, // U+2103 to U+2106
    17317889, // U+2108 to U+2109
    17342464, // U+2114 to U+2114
    17346562, // U+2116 to U+2118
    17362949, // U+211E to U+2123
    17377280, // U+2125 to U+2125
    17381376, // U+2127 to U+2127
    17385472, // U+2129 to U+2129
    17395712, // U+212E to U+212E
    17420289, // U+213A to U+213B
    17432580, // U+2140 to U+2144
    17453059, // U+214A to U+214D
    17463296, // U+214F to U+214F
    17584129, // U+218A to U+218B
    17597081, // U+2190 to U+2429
    19005450, // U+2440 to U+244A
    19193933, // U+249C to U+24E9
    19399285, // U+2500 to U+2775
    20751327, // U+2794 to U+2B73
    22786079, // U+2B76 to U+2B95
    22853736, // U+2B97 to U+2BFF
    23537669, // U+2CE5 to U+2CEA
    23578627, // U+2CF9 to U+2CFC
    23588865, // U+2CFE to U+2CFF
    23822336, // U+2D70 to U+2D70
    24117294, // U+2E00 to U+2E2E
    24215597, // U+2E30 to U+2E5D
    24379417, // U+2E80 to U+2E99
    24434776, // U+2E9B to U+2EF3
    24641749, // U+2F00 to U+2FD5
    25133071, // U+2FF0 to U+2FFF
    25167875, // U+3001 to U+3004
    25182232, // U+3008 to U+3020
    25264128, // U+3030 to U+3030
    25276417, // U+3036 to U+3037
    25290754, // U+303D to U+303F
    25483265, // U+309B to U+309C
    25493504, // U+30A0 to U+30A0
    25679872, // U+30FB to U+30FB
    25985025, // U+3190 to U+3191
    25997321, // U+3196 to U+319F
    26083365, // U+31C0 to U+31E5
    26179584, // U+31EF to U+31EF
    26214430, // U+3200 to U+321E
    26300445, // U+322A to U+3247
    26378240, // U+3250 to U+3250
    26411039, // U+3260 to U+327F
    26497062, // U+328A to U+32B0
    26607935, // U+32C0 to U+33FF
    40763455, // U+4DC0 to U+4DFF
    86278198, // U+A490 to U+A4C6
    86503425, // U+A4FE to U+A4FF
    87058434, // U+A60D to U+A60F
    87267328, // U+A673 to U+A673
    87289856, // U+A67E to U+A67E
    87527429, // U+A6F2 to U+A6F7
    87556118, // U+A700 to U+A716
    87621633, // U+A720 to U+A721
    87836673, // U+A789 to U+A78A
    88162307, // U+A828 to U+A82B
    88190979, // U+A836 to U+A839
    88317955, // U+A874 to U+A877
    88502273, // U+A8CE to U+A8CF
    88588290, // U+A8F8 to U+A8FA
    88596480, // U+A8FC to U+A8FC
    88698881, // U+A92E to U+A92F
    88799232, // U+A95F to U+A95F
    88999948, // U+A9C1 to U+A9CD
    89059329, // U+A9DE to U+A9DF
    89317379, // U+AA5C to U+AA5F
    89372674, // U+AA77 to U+AA79
    89583617, // U+AADE to U+AADF
    89620481, // U+AAF0 to U+AAF1
    89839616, // U+AB5B to U+AB5B
    89870337, // U+AB6A to U+AB6B
    90134528, // U+ABEB to U+ABEB
    131680256, // U+FB29 to U+FB29
    131960848, // U+FBB2 to U+FBC2
    132771857, // U+FD3E to U+FD4F
    133068800, // U+FDCF to U+FDCF
    133160963, // U+FDFC to U+FDFF
    133201929, // U+FE10 to U+FE19
    133267490, // U+FE30 to U+FE52
    133341202, // U+FE54 to U+FE66
    133382147, // U+FE68 to U+FE6B
    133695502, // U+FF01 to U+FF0F
    133746694, // U+FF1A to U+FF20
    133814277, // U+FF3B to U+FF40
    133879818, // U+FF5B to U+FF65
    134152198, // U+FFE0 to U+FFE6
    134168582, // U+FFE8 to U+FFEE
    134209537, // U+FFFC to U+FFFD
    134742018, // U+10100 to U+10102
    134854664, // U+10137 to U+1013F
    134989840, // U+10179 to U+10189
    135028738, // U+1018C to U+1018E
    135036940, // U+10190 to U+1019C
    135069696, // U+101A0 to U+101A0
    135168044, // U+101D0 to U+101FC
    136116224, // U+1039F to U+1039F
    136216576, // U+103D0 to U+103D0
    137066496, // U+1056F to U+1056F
    138590208, // U+10857 to U+10857
    138655745, // U+10877 to U+10878
    138999808, // U+1091F to U+1091F
    139065344, // U+1093F to U+1093F
    139624456, // U+10A50 to U+10A58
    139720704, // U+10A7F to U+10A7F
    139870208, // U+10AC8 to U+10AC8
    139952134, // U+10AF0 to U+10AF6
    140101638, // U+10B39 to U+10B3F
    140298243, // U+10B99 to U+10B9C
    141258752, // U+10D6E to U+10D6E
    141324289, // U+10D8E to U+10D8F
    141912064, // U+10EAD to U+10EAD
    142256132, // U+10F55 to U+10F59
    142356483, // U+10F86 to U+10F89
    142751750, // U+11047 to U+1104D
    142989313, // U+110BB to U+110BC
    142995459, // U+110BE to U+110C1
    143261699, // U+11140 to U+11143
    143368193, // U+11174 to U+11175
    143534083, // U+111C5 to U+111C8
    143550464, // U+111CD to U+111CD
    143579136, // U+111DB to U+111DB
    143583234, // U+111DD to U+111DF
    143769605, // U+11238 to U+1123D
    144001024, // U+112A9 to U+112A9
    144613377, // U+113D4 to U+113D5
    144619521, // U+113D7 to U+113D8
    144857092, // U+1144B to U+1144F
    144887809, // U+1145A to U+1145B
    144893952, // U+1145D to U+1145D
    145108992, // U+114C6 to U+114C6
    145623062, // U+115C1 to U+115D7
    145885186, // U+11641 to U+11643
    145948684, // U+11660 to U+1166C
    146130944, // U+116B9 to U+116B9
    146399235, // U+1173C to U+1173F
    146921472, // U+1183B to U+1183B
    147464194, // U+11944 to U+11946
    147787776, // U+119E2 to U+119E2
    147978247, // U+11A3F to U+11A46
    148164610, // U+11A9A to U+11A9C
    148172804, // U+11A9E to U+11AA2
    148373513, // U+11B00 to U+11B09
    148834304, // U+11BE1 to U+11BE1
    149030916, // U+11C41 to U+11C45
    149127169, // U+11C70 to U+11C71
    150452225, // U+11EF7 to U+11EF8
    150607884, // U+11F43 to U+11F4F
    150906908, // U+11FD5 to U+11FF1
    150992896, // U+11FFF to U+11FFF
    153321476, // U+12470 to U+12474
    159352833, // U+12FF1 to U+12FF2
    190017537, // U+16A6E to U+16A6F
    190294016, // U+16AF5 to U+16AF5
    190429192, // U+16B37 to U+16B3F
    190455809, // U+16B44 to U+16B45
    191588354, // U+16D6D to U+16D6F
    192198659, // U+16E97 to U+16E9A
    192876544, // U+16FE2 to U+16FE2
    233103360, // U+1BC9C to U+1BC9C
    233109504, // U+1BC9F to U+1BC9F
    241172719, // U+1CC00 to U+1CCEF
    241697203, // U+1CD00 to U+1CEB3
    242909299, // U+1CF50 to U+1CFC3
    243269877, // U+1D000 to U+1D0F5
    243793958, // U+1D100 to U+1D126
    243877947, // U+1D129 to U+1D164
    244011010, // U+1D16A to U+1D16C
    244062209, // U+1D183 to U+1D184
    244080669, // U+1D18C to U+1D1A9
    244150332, // U+1D1AE to U+1D1EA
    244318273, // U+1D200 to U+1D241
    244459520, // U+1D245 to U+1D245
    244842582, // U+1D300 to U+1D356
    246810624, // U+1D6C1 to U+1D6C1
    246863872, // U+1D6DB to U+1D6DB
    246929408, // U+1D6FB to U+1D6FB
    246982656, // U+1D715 to U+1D715
    247048192, // U+1D735 to U+1D735
    247101440, // U+1D74F to U+1D74F
    247166976, // U+1D76F to U+1D76F
    247220224, // U+1D789 to U+1D789
    247285760, // U+1D7A9 to U+1D7A9
    247339008, // U+1D7C3 to U+1D7C3
    247464447, // U+1D800 to U+1D9FF
    248625155, // U+1DA37 to U+1DA3A
    248735751, // U+1DA6D to U+1DA74
    248754189, // U+1DA76 to U+1DA83
    248784902, // U+1DA85 to U+1DA8B
    252344320, // U+1E14F to U+1E14F
    253229056, // U+1E2FF to U+1E2FF
    254801920, // U+1E5FF to U+1E5FF
    256569345, // U+1E95E to U+1E95F
    258301952, // U+1ECAC to U+1ECAC
    258310144, // U+1ECB0 to U+1ECB0
    258568192, // U+1ED2E to U+1ED2E
    259489793, // U+1EEF0 to U+1EEF1
    260046891, // U+1F000 to U+1F02B
    260145251, // U+1F030 to U+1F093
    260374542, // U+1F0A0 to U+1F0AE
    260409358, // U+1F0B1 to U+1F0BF
    260442126, // U+1F0C1 to U+1F0CF
    260474916, // U+1F0D1 to U+1F0F5
    260597920, // U+1F10D to U+1F1AD
    261042204, // U+1F1E6 to U+1F202
    261128235, // U+1F210 to U+1F23B
    261226504, // U+1F240 to U+1F248
    261259265, // U+1F250 to U+1F251
    261292037, // U+1F260 to U+1F265
    261620695, // U+1F300 to U+1F6D7
    263643152, // U+1F6DC to U+1F6EC
    263684108, // U+1F6F0 to U+1F6FC
    263716982, // U+1F700 to U+1F776
    263968862, // U+1F77B to U+1F7D9
    264175627, // U+1F7E0 to U+1F7EB
    264208384, // U+1F7F0 to U+1F7F0
    264241163, // U+1F800 to U+1F80B
    264273975, // U+1F810 to U+1F847
    264405001, // U+1F850 to U+1F859
    264437799, // U+1F860 to U+1F887
    264536093, // U+1F890 to U+1F8AD
    264601611, // U+1F8B0 to U+1F8BB
    264634369, // U+1F8C0 to U+1F8C1
    264765779, // U+1F900 to U+1FA53
    265486349, // U+1FA60 to U+1FA6D
    265519116, // U+1FA70 to U+1FA7C
    265551881, // U+1FA80 to U+1FA89
    265582647, // U+1FA8F to U+1FAC6
    265711630, // U+1FACE to U+1FADC
    265746442, // U+1FADF to U+1FAE9
    265781256, // U+1FAF0 to U+1FAF8
    265814162, // U+1FB00 to U+1FB92
    266117211, // U+1FB94 to U+1FBEF
];

// The general category Zs (space separator).
pub const SPACES: [u32; 7] = [
    65536, // U+0020 to U+0020
    327680, // U+00A0 to U+00A0
    11796480, // U+1680 to U+1680
    16777226, // U+2000 to U+200A
    16873472, // U+202F to U+202F
    16971776, // U+205F to U+205F
    25165824, // U+3000 to U+3000
];
