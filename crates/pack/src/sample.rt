//! The order that is followed where the command line names none.

/// A struct of lists, byte strings and a dictionary, with nulls; columns of other kinds; a dictionary that a valid row
/// reaches past; dictionaries that are collected, with each update and a refused one; batches that are planned, with each kind
/// of message, and in memories that are too short; batches that are framed, with the numbers of each message and with headers
/// that are supplied, into a sink until it is full; and an alignment that is none.
pub const SAMPLE: &str = "\
# node: kind mark size rows from bitmap slots data extent span
# A bitmap is given as its place plus 1, and 0 is none.
case rows
align 8
node 7 0 0 3 1  1  0  0 0 6  # a struct; its second row is null
node 5 1 0 3 1  0 12  0 0 2  #   a list in each row: of two, none and three
node 2 0 2 5 3  2 32  0 0 1  #     values of two bytes; one is null
node 3 1 0 3 1  0 48 68 8 1  #   a byte string in each row
node 8 1 1 3 5  3  3  0 0 2  #   a dictionary; its second row is null
node 3 1 0 2 1  0 76 92 7 1  #     the two byte strings that it has
bytes 0a b8 a0                                      # place  0: the bitmaps
bytes 0000000000 01 ff 00 00                        # place  3: the keys; that of a null row is free
bytes FFFFFFFF 00000000 02000000 02000000 05000000  # place 12: where the lists begin and end
bytes 0000 0000 0000 0100 0200 0300 0000 0500       # place 32: the values
bytes 00000000 00000000 03000000 03000000 08000000  # place 48: where the byte strings begin and end
bytes 6f6e65 7468726565                             # place 68: one, three
bytes 00000000 00000000 03000000 07000000           # place 76: where the dictionary's begin and end
bytes 726564 626c7565                               # place 92: red, blue
show 0 1 3                                          # the rows of the struct
show 3 2 3                                          # two columns side by side: the byte strings, and the dictionary
show 2 2 5                                          # the second column has other rows
plan 0 1 3                                          # there is no id yet
id
plan 0 1 3                                          # the dictionary's values, and the struct
plan 0 1 3                                          # the values were sent

case kinds
align 8
node 1 0 0 3 2  0  0  0 0 1  # Booleans
node 2 0 3 3 0  0  1  0 0 1  # values of three bytes
node 4 0 0 3 0  0 10 42 6 1  # byte strings with offsets of eight bytes
node 0 0 0 3 0  0  0  0 0 1  # nulls
bytes 14                                            # place  0: the Booleans
bytes 616263 000102 226122                          # place  1: the values; a quote is not printed in quotes
bytes 0000000000000000 0300000000000000             # place 10: where the byte strings begin and end
bytes 0300000000000000 0600000000000000
bytes 616263 00ff7f                                 # place 42: the byte strings
show 0 4 3
show 0 1 2147483648                                 # too many rows
plan 0 4 3
plan 0 0 0                                          # no columns

case key
node 8 1 1 3 0 0 0  0 0 2
node 3 1 0 2 0 0 4 16 7 1
bytes 00 ff 01 00                 # the second row's key is -1
bytes 00000000 03000000 07000000
bytes 726564 626c7565

case dictionaries
handling delta
node 8 1 1 2 0 0 0  0 0 2  # a dictionary: a, b
node 3 2 0 2 0 0 2 18 2 1
node 8 1 1 2 0 0 0  0 0 2  # the same values at another place
node 3 2 0 2 0 0 2 21 2 1
node 8 1 1 2 0 0 0  0 0 2  # a, b, c
node 3 2 0 3 0 0 2 18 3 1
node 8 1 1 1 0 0 0  0 0 2  # a
node 3 2 0 1 0 0 2 18 1 1
bytes 00 01                                # place  0: the keys
bytes 00000000 01000000 02000000 03000000  # place  2: where the values begin and end
bytes 616263 6162                          # place 18: the values
collect 0 1 2                              # there is no id yet
id
collect 0 1 2                              # nothing was kept
collect 2 1 2                              # what was kept
collect 4 1 2                              # one value more
collect 6 1 1                              # fewer
id
collect 0 2 2                              # two columns, and so two ids
collect 1 1 2                              # a column without a dictionary

case replacement
error_on_replacement 1
node 7 0 0 1 0 0 0 0 0 3   # a struct of a dictionary: a
node 8 1 1 1 0 0 0 0 0 2
node 3 2 0 1 0 0 1 9 1 1
node 7 0 0 1 0 0 0 0 0 3   # the same with b
node 8 1 1 1 0 0 0 0 0 2
node 3 2 0 1 0 0 1 10 1 1
bytes 00 00000000 01000000 61 62
id
collect 0 1 1
collect 3 1 1              # other values
collect 0 1 1              # a refusal keeps what was kept

case memories
align 8
handling delta
node 8 1 1 2 0 0 0  0 0 2  # a dictionary: a, b
node 3 2 0 2 0 0 2 18 2 1
node 8 1 1 2 0 0 0  0 0 2  # a, b, c
node 3 2 0 3 0 0 2 18 3 1
bytes 00 01                                # place  0: the keys
bytes 00000000 01000000 02000000 03000000  # place  2: where the values begin and end
bytes 616263                               # place 18: the values
id
memory 1 4 1 11 65535
plan 0 1 2                                 # each is too short by one
memory 2 5 2 11 65536
plan 0 1 2                                 # work memory is
memory 2 5 2 12 65536
plan 0 1 2                                 # nothing was kept
plan 2 1 2                                 # one value more

case frames
align 8
handling delta
sink buffers 504 23                        # room for the frames of two batches, and no more
held 2a                                    # what the sink holds at first
node 8 1 1 2 0 0 0  0 0 2  # a dictionary: a, b
node 3 2 0 2 0 0 2 18 2 1
node 8 1 1 2 0 0 0  0 0 2  # a, b, c
node 3 2 0 3 0 0 2 18 3 1
bytes 00 01                                # place  0: the keys
bytes 00000000 01000000 02000000 03000000  # place  2: where the values begin and end
bytes 616263                               # place 18: the values
frame 0 1 2                                # there is no id yet
id
frame 0 1 2                                # the dictionary's values, and the batch
frame 2 1 2                                # one value more
frame 2 1 2                                # the sink is full

case headers
align 8
node 8 1 1 2 0 0 0  0 0 2  # a dictionary: a, b
node 3 2 0 2 0 0 2 14 2 1
bytes 00 01                                # place  0: the keys
bytes 00000000 01000000 02000000           # place  2: where the values begin and end
bytes 6162                                 # place 14: the values
meta 6f6e65                                # a header for each message: one, two, three
meta 74776f
meta 7468726565
meta -                                     # and none for the fourth
id
frame 0 1 2                                # two messages
frame 0 1 2                                # the values were sent, and so it is one
frame 0 1 2                                # there is no header

case alignment
align 24
";
